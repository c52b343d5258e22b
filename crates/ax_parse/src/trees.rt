//! Reading sources.
ghost use Rattle.std.specs.Prelude.{◌≡◌, ◌⊎◌, IfOk, IfErr};
ghost use Rattle.ax_parse_grammar.specs.declared.tree.Tree.{Tree};
ghost use Rattle.ax_parse_grammar.specs.Terminals.{extent as extent_of};
ghost use Rattle.ax_parse_grammar.specs.Sources.{SpellsTree};
ghost use Rattle.ax_parse_grammar.specs.Reading.{repeated};
ghost use Rattle.ax_parse_grammar.specs.ReadSources.{ends_source, top};
ghost use Rattle.ax_parse.specs.Found.{GivesAll};

use crate::parts::part;
use ax_parse_expressions::ReadFault;
use ax_parse_expressions::tokens::extent;
use ax_parse_grammar::tree::{Part, Tree};
use ax_prog::Span;
use ax_prog::tokens::Token;
use sqlite_items::Items;
use std::alloc::Global;

// All that stands at the top of a source.
fn parts(alloc: Global, tokens: &[Token]) -> Result<Items<Part>, ReadFault>
    ensures { GivesAll result (λ n. repeated ends_source top n tokens.now) }
{
    let mut found = Items::new(alloc);
    let mut at = 0;
    while at < tokens.len() {
        let (next, end) = part(alloc, tokens, at)?;
        found.push(next)?;
        at = end;
    }
    Ok(found)
}

/// From the first token to the last; no bytes where there is none.
pub fn whole_extent(tokens: &[Token]) -> Span
    ensures { result ≡ extent_of tokens.now }
{
    if tokens.is_empty() {
        return Span { from: 0, to: 0 };
    }
    extent(tokens, 0, tokens.len())
}

/// The tree that the tokens spell.
///
/// # Errors
///
/// `Syntax` where no tree is spelled; the number counts the tokens before the one that didn't fit.
pub fn read_tree(alloc: Global, tokens: &[Token]) -> Result<Tree, ReadFault>
    ensures spelled { IfOk result (λ t. SpellsTree t tokens.now) }
    ensures none { IfErr result (λ e. (e ≡ ReadFault.Memory) ⊎ ((t : Tree) → SpellsTree t tokens.now → ⊥)) }
{
    let found = parts(alloc, tokens)?;
    Ok(Tree {
        span: whole_extent(tokens),
        parts: found,
    })
}
