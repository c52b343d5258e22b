//! Reading what stands in the parentheses of statements.
ghost use Rattle.std.specs.Prelude.{◌≡◌, ℕ, ◌+◌, ◌≤◌, ◌<◌, IfOk, IfSome, option_map, length, drop};
ghost use Rattle.ax_parse_grammar.specs.Reading.{next, until, maybe_until};
ghost use Rattle.ax_parse_grammar.specs.ReadExpressions.{expr};
ghost use Rattle.ax_parse_grammar.specs.ReadDeclarations.{decl};
ghost use Rattle.ax_parse_grammar.specs.ReadStatements.{begins_decl as begins_decl_list, test_by, simple_stmt};
ghost use Rattle.ax_parse_expressions.specs.Answers.{Gives};
ghost use Rattle.ax_parse_statements.specs.SimplesFound.{begins, decl_opening_by, simple_opening_by, do_end_by};

use crate::decl;
use crate::simples::simple_until;
use ax_parse_expressions::tokens::is_at;
use ax_parse_expressions::{ReadFault, whole_until};
use ax_parse_grammar::starts::{Start, start_of};
use ax_parse_grammar::terminals::Terminal;
use ax_parse_grammar::tree::{Expr, Opening, Simple};
use ax_prog::tokens::Token;
use std::alloc::Global;

/// What begins with the token at a place.
pub fn start_at(tokens: &[Token], at: usize) -> Option<Start>
    requires { at ≤ length tokens.now }
    ensures found { next begins (drop at tokens.now) ≡ option_map (λ s. (s, drop (at + 1) tokens.now)) result }
    ensures within { IfSome result (λ s. at < length tokens.now) }
{
    if at == tokens.len() {
        return None;
    }
    Some(start_of(&tokens[at].kind))
}

/// Whether a declaration begins at a place.
pub fn begins_decl(tokens: &[Token], at: usize) -> bool
    requires { at ≤ length tokens.now }
    ensures { result ≡ begins_decl_list (drop at tokens.now) }
{
    at < tokens.len() && matches!(start_of(&tokens[at].kind), Start::Decl)
}

/// An expression in parentheses.
pub fn test(alloc: Global, tokens: &[Token], at: usize) -> Result<(Expr, usize), ReadFault>
    requires { at ≤ length tokens.now }
    ensures forward { IfOk result (λ f. (at < f.1) × (f.1 ≤ length tokens.now)) }
    ensures exact { Gives tokens.now result (λ n. test_by (expr n) (drop at tokens.now)) }
{
    if !is_at(tokens, at, Terminal::OpenRound) {
        return Err(ReadFault::Syntax(at));
    }
    whole_until(alloc, tokens, at + 1, Terminal::CloseRound)
}

/// An expression, if any, and the terminal behind it.
pub fn maybe_whole(
    alloc: Global,
    tokens: &[Token],
    at: usize,
    what: Terminal,
) -> Result<(Option<Expr>, usize), ReadFault>
    requires { at ≤ length tokens.now }
    ensures forward { IfOk result (λ f. (at < f.1) × (f.1 ≤ length tokens.now)) }
    ensures exact { Gives tokens.now result (λ n. maybe_until what (expr n) (drop at tokens.now)) }
{
    if is_at(tokens, at, what) {
        return Ok((None, at + 1));
    }
    let (found, end) = whole_until(alloc, tokens, at, what)?;
    Ok((Some(found), end))
}

/// A simple statement, if any, and the terminal behind it.
pub fn maybe_simple(
    alloc: Global,
    tokens: &[Token],
    at: usize,
    what: Terminal,
) -> Result<(Option<Simple>, usize), ReadFault>
    requires { at ≤ length tokens.now }
    ensures forward { IfOk result (λ f. (at < f.1) × (f.1 ≤ length tokens.now)) }
    ensures exact { Gives tokens.now result (λ n. maybe_until what (simple_stmt n) (drop at tokens.now)) }
{
    if is_at(tokens, at, what) {
        return Ok((None, at + 1));
    }
    let (found, end) = simple_until(alloc, tokens, at, what)?;
    Ok((Some(found), end))
}

/// A declaration with which a `for` begins.
pub fn decl_opening(
    alloc: Global,
    tokens: &[Token],
    at: usize,
) -> Result<(Opening, usize), ReadFault>
    requires { at ≤ length tokens.now }
    ensures forward { IfOk result (λ f. (at < f.1) × (f.1 ≤ length tokens.now)) }
    ensures exact { Gives tokens.now result (λ n. decl_opening_by (decl n) (drop at tokens.now)) }
{
    let (found, end) = decl(alloc, tokens, at)?;
    Ok((Opening::Decl(found), end))
}

/// A simple statement with which a `for` begins, and `;`.
pub fn simple_opening(
    alloc: Global,
    tokens: &[Token],
    at: usize,
) -> Result<(Opening, usize), ReadFault>
    requires { at ≤ length tokens.now }
    ensures forward { IfOk result (λ f. (at < f.1) × (f.1 ≤ length tokens.now)) }
    ensures exact { Gives tokens.now result (λ n. simple_opening_by (simple_stmt n) (drop at tokens.now)) }
{
    let (act, end) = simple_until(alloc, tokens, at, Terminal::Semicolon)?;
    Ok((Opening::Simple(act), end))
}

// An expression in parentheses, and `;`.
fn test_ended(alloc: Global, tokens: &[Token], at: usize) -> Result<(Expr, usize), ReadFault>
    requires { at ≤ length tokens.now }
    ensures forward { IfOk result (λ f. (at < f.1) × (f.1 ≤ length tokens.now)) }
    ensures exact { Gives tokens.now result (λ n. until Terminal.Semicolon (test_by (expr n)) (drop at tokens.now)) }
{
    let (found, next) = test(alloc, tokens, at)?;
    if !is_at(tokens, next, Terminal::Semicolon) {
        return Err(ReadFault::Syntax(next));
    }
    Ok((found, next + 1))
}

/// The end of a `do`: `while`, an expression in parentheses and `;`.
pub fn do_end(alloc: Global, tokens: &[Token], at: usize) -> Result<(Expr, usize), ReadFault>
    requires { at ≤ length tokens.now }
    ensures forward { IfOk result (λ f. (at < f.1) × (f.1 ≤ length tokens.now)) }
    ensures exact { Gives tokens.now result (λ n. do_end_by (expr n) (drop at tokens.now)) }
{
    if !is_at(tokens, at, Terminal::While) {
        return Err(ReadFault::Syntax(at));
    }
    test_ended(alloc, tokens, at + 1)
}
