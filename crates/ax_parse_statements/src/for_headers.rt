//! Reading what stands in the parentheses of a `for`.
ghost use Rattle.std.specs.Prelude.{ℕ, ◌+◌, ◌≤◌, ◌<◌, IfOk, length, drop};
ghost use Rattle.ax_parse_grammar.specs.ReadExpressions.{expr};
ghost use Rattle.ax_parse_grammar.specs.ReadDeclarations.{decl};
ghost use Rattle.ax_parse_grammar.specs.ReadStatements.{simple_stmt, opening_by, for_head_by};
ghost use Rattle.ax_parse_expressions.specs.Answers.{Gives};
ghost use Rattle.ax_parse_statements.specs.ForsFound.{header_by, opened_by, tested_by};

use crate::headers::{begins_decl, decl_opening, maybe_simple, maybe_whole, simple_opening};
use ax_parse_expressions::ReadFault;
use ax_parse_expressions::tokens::is_at;
use ax_parse_grammar::terminals::Terminal;
use ax_parse_grammar::tree::{Expr, Opening, Simple};
use ax_prog::tokens::Token;
use sqlite_items::Boxed;
use std::alloc::Global;

// How a `for` begins, and `;`.
fn opening(alloc: Global, tokens: &[Token], at: usize) -> Result<(Opening, usize), ReadFault>
    requires { at ≤ length tokens.now }
    ensures forward { IfOk result (λ f. (at < f.1) × (f.1 ≤ length tokens.now)) }
    ensures exact { Gives tokens.now result (λ n. opening_by (decl n) (simple_stmt n) (drop at tokens.now)) }
{
    if is_at(tokens, at, Terminal::Semicolon) {
        return Ok((Opening::Nothing, at + 1));
    }
    if begins_decl(tokens, at) {
        return decl_opening(alloc, tokens, at);
    }
    simple_opening(alloc, tokens, at)
}

// The step, if any, and `)`, behind the opening and the condition.
fn tested(
    alloc: Global,
    tokens: &[Token],
    at: usize,
    begun: Boxed<(Opening, Option<Expr>)>,
) -> Result<((Opening, (Option<Expr>, Option<Simple>)), usize), ReadFault>
    requires { at ≤ length tokens.now }
    ensures forward { IfOk result (λ f. (at < f.1) × (f.1 ≤ length tokens.now)) }
    ensures exact { Gives tokens.now result (λ n. tested_by (simple_stmt n) begun.0 begun.1 (drop at tokens.now)) }
{
    let (step, end) = maybe_simple(alloc, tokens, at, Terminal::CloseRound)?;
    let (opening, test) = begun.into_inner();
    Ok(((opening, (test, step)), end))
}

// The condition, if any, `;`, the step, if any, and `)`, behind the opening. What was read stays in a box while more is read,
// so that a fault has one thing to drop.
fn opened(
    alloc: Global,
    tokens: &[Token],
    at: usize,
    opening: Boxed<Opening>,
) -> Result<((Opening, (Option<Expr>, Option<Simple>)), usize), ReadFault>
    requires { at ≤ length tokens.now }
    ensures forward { IfOk result (λ f. (at < f.1) × (f.1 ≤ length tokens.now)) }
    ensures exact { Gives tokens.now result (λ n. opened_by (expr n) (simple_stmt n) opening (drop at tokens.now)) }
{
    let (test, next) = maybe_whole(alloc, tokens, at, Terminal::Semicolon)?;
    let begun = Boxed::new(alloc, (opening.into_inner(), test))?;
    tested(alloc, tokens, next, begun)
}

// What stands between the parentheses of a `for`, and `)`.
fn inner(
    alloc: Global,
    tokens: &[Token],
    at: usize,
) -> Result<((Opening, (Option<Expr>, Option<Simple>)), usize), ReadFault>
    requires { at ≤ length tokens.now }
    ensures forward { IfOk result (λ f. (at < f.1) × (f.1 ≤ length tokens.now)) }
    ensures exact { Gives tokens.now result (λ n. for_head_by (expr n) (decl n) (simple_stmt n) (drop at tokens.now)) }
{
    let (opening, next) = opening(alloc, tokens, at)?;
    let begun = Boxed::new(alloc, opening)?;
    opened(alloc, tokens, next, begun)
}

/// The parentheses of a `for`: how it begins, its condition and its step, where it has them.
pub fn for_header(
    alloc: Global,
    tokens: &[Token],
    at: usize,
) -> Result<((Opening, (Option<Expr>, Option<Simple>)), usize), ReadFault>
    requires { at ≤ length tokens.now }
    ensures forward { IfOk result (λ f. (at < f.1) × (f.1 ≤ length tokens.now)) }
    ensures exact { Gives tokens.now result (λ n. header_by (expr n) (decl n) (simple_stmt n) (drop at tokens.now)) }
{
    if !is_at(tokens, at, Terminal::OpenRound) {
        return Err(ReadFault::Syntax(at));
    }
    inner(alloc, tokens, at + 1)
}
