//! Reading sources: the tree that a token list spells, within the limits of the language.
#![tactic(auto)]

ghost use Rattle.std.specs.Prelude.{◌≡◌, ◌⊎◌, ℕ, None, IfOk, IfErr};
ghost use Rattle.ax_parse_limits.specs.Nesting.{first_too_deep};
ghost use Rattle.ax_parse_grammar.specs.Sources.{SpellsTree};
ghost use Rattle.ax_parse_limits.specs.Calls.{call_inside as call_inside_of};
ghost use Rattle.ax_parse_limits.specs.Wholes.{wholes, first_large};
ghost use Rattle.ax_parse_places.specs.Fronts.{StopsAt};
ghost use Rattle.ax_parse.specs.Faults.{IsUnspelled, FaultIs};

mod sound;

pub use sound::read_is_spelled;

pub mod faults;
mod parts;
mod trees;

use ax_parse_expressions::ReadFault;
use ax_parse_grammar::tree::Tree;
use ax_parse_limits::{call_inside, too_deep, too_large};
use ax_parse_places::place;
use ax_prog::tokens::Token;
pub use faults::ParseFault;
use std::alloc::{AllocError, Global};
pub use trees::read_tree;
use trees::whole_extent;

// Where tokens that spell no tree stop.
fn stop(alloc: Global, tokens: &[Token]) -> Result<usize, AllocError>
    ensures { IfOk result (StopsAt tokens.now) }
{
    let count = place(alloc, tokens)?;
    if count < tokens.len() {
        return Ok(tokens[count].span.from as usize);
    }
    Ok(whole_extent(tokens).to as usize)
}

// The tree that the tokens spell, with a fault's place in the source.
fn tree_of(alloc: Global, tokens: &[Token]) -> Result<Tree, ParseFault>
    ensures spelled { IfOk result (λ t. SpellsTree t tokens.now) }
    ensures fault { IfErr result (λ e. (e ≡ ParseFault.Memory) ⊎ ((at : ℕ) × (e ≡ ParseFault.Syntax at) × IsUnspelled tokens.now × StopsAt tokens.now at)) }
{
    match read_tree(alloc, tokens) {
        Ok(tree) => Ok(tree),
        Err(ReadFault::Memory) => Err(ParseFault::Memory),
        Err(ReadFault::Syntax(_)) => Err(ParseFault::Syntax(stop(alloc, tokens)?)),
    }
}

/// The tree that the tokens spell, where they nest at most 200 deep, no call stands inside an expression, and no expression has
/// more than 400 nodes.
///
/// # Errors
///
/// `TooDeep` at the first token behind which the measure of nesting exceeds 200; else `Syntax` where no tree is spelled, at the
/// start of a token with which, and with those before it, no source begins, or at the end of the last token; else `CallInside`
/// at the first call that stands inside an expression; else `ExprTooLarge` at the first part that the rule `expr` spells and
/// that has more than 400 nodes.
pub fn parse(alloc: Global, tokens: &[Token]) -> Result<Tree, ParseFault>
    ensures spelled { IfOk result (λ t. SpellsTree t tokens.now) }
    ensures shallow { IfOk result (λ t. first_too_deep tokens.now ≡ None) }
    ensures outside { IfOk result (λ t. call_inside_of t ≡ None) }
    ensures small { IfOk result (λ t. (s : SpellsTree t tokens.now) → first_large (wholes s) ≡ None) }
    ensures fault { IfErr result (λ e. FaultIs tokens.now e) }
{
    if let Some(at) = too_deep(alloc, tokens)? {
        return Err(ParseFault::TooDeep(at as usize));
    }
    let tree = tree_of(alloc, tokens)?;
    if let Some(at) = call_inside(&tree) {
        return Err(ParseFault::CallInside(at));
    }
    if let Some(at) = too_large(tokens) {
        return Err(ParseFault::ExprTooLarge(at));
    }
    Ok(tree)
}
