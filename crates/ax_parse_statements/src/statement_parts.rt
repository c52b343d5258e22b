//! Parts of statements, and items of blocks that hold no statement.
ghost use Rattle.std.specs.Prelude.{◌≡◌, ℕ, ◌+◌, ◌≤◌, ◌<◌, IfOk, length, drop};
ghost use Rattle.ax_parse_grammar.specs.ReadDeclarations.{decl};
ghost use Rattle.ax_parse_grammar.specs.ReadStatements.{stmt_by, stmt, items};
ghost use Rattle.ax_parse_expressions.specs.Answers.{Gives};
ghost use Rattle.ax_parse_statements.specs.StatementsFound.{decl_item_by};

use crate::decl;
use ax_parse_expressions::ReadFault;
use ax_parse_expressions::tokens::extent;
use ax_parse_grammar::starts::Start;
use ax_parse_grammar::tree::{Expr, Opening, Simple, Stmt};
use ax_prog::Span;
use ax_prog::tokens::Token;
use sqlite_items::Boxed;
use std::alloc::Global;

/// A statement that is `;` alone, which stands at `at`.
pub fn empty(tokens: &[Token], at: usize) -> Result<(Stmt, usize), ReadFault>
    requires { at < length tokens.now }
    ensures forward { IfOk result (λ f. (at < f.1) × (f.1 ≤ length tokens.now)) }
    ensures exact { Gives tokens.now result (λ n. stmt_by n (stmt n) (items n) (drop at tokens.now) (drop (at + 1) tokens.now) Start.Empty) }
{
    Ok((Stmt::Empty(extent(tokens, at, at + 1)), at + 1))
}

/// A declaration as an item of a block.
pub fn decl_item(alloc: Global, tokens: &[Token], at: usize) -> Result<(Stmt, usize), ReadFault>
    requires { at ≤ length tokens.now }
    ensures forward { IfOk result (λ f. (at < f.1) × (f.1 ≤ length tokens.now)) }
    ensures exact { Gives tokens.now result (λ n. decl_item_by (decl n) (drop at tokens.now)) }
{
    let (found, end) = decl(alloc, tokens, at)?;
    Ok((Stmt::Decl(found), end))
}

/// A `for`, of what stands in its parentheses and its body.
pub fn for_node(
    span: Span,
    header: (Opening, (Option<Expr>, Option<Simple>)),
    body: Boxed<Stmt>,
) -> Stmt
    ensures { result ≡ Stmt.For span header.0 header.1.0 header.1.1 body }
{
    let (opening, (test, step)) = header;
    Stmt::For(span, opening, test, step, body)
}
