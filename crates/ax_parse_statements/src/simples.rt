//! Reading simple statements.
ghost use Rattle.std.specs.Prelude.{◌≡◌, ℕ, ◌+◌, ◌≤◌, ◌<◌, IfOk, length, drop};
ghost use Rattle.ax_parse_grammar.specs.Reading.{until};
ghost use Rattle.ax_parse_grammar.specs.ReadExpressions.{expr, unary, postfix};
ghost use Rattle.ax_parse_grammar.specs.ReadStatements.{call_by, assign_by, chain_by, left_by, simple_stmt};
ghost use Rattle.ax_parse_expressions.specs.Answers.{Gives};
ghost use Rattle.ax_parse_statements.specs.DeclarationsFound.{Finds};
ghost use Rattle.ax_parse_statements.specs.SimplesFound.{set_by, change_by};

use ax_parse_expressions::tokens::{compound_at, extent, is_at, prefix_at, step_at};
use ax_parse_expressions::{ReadFault, postfix, unary, whole};
use ax_parse_grammar::terminals::Terminal;
use ax_parse_grammar::tree::{Expr, Simple};
use ax_prog::Bin;
use ax_prog::tokens::Token;
use std::alloc::Global;

// A call alone, which began at `start`; x is one where `called` says so.
fn call_alone(
    tokens: &[Token],
    start: usize,
    at: usize,
    x: Expr,
    called: bool,
) -> Result<(Simple, usize), ReadFault>
    requires order { start < at }
    requires within { at ≤ length tokens.now }
    ensures forward { IfOk result (λ f. (at ≤ f.1) × (f.1 ≤ length tokens.now)) }
    ensures exact { Finds tokens.now result (call_by (drop start tokens.now) ((x, called), drop at tokens.now)) }
{
    if !called {
        return Err(ReadFault::Syntax(at));
    }
    Ok((Simple::Call(extent(tokens, start, at), x), at))
}

// The right side of an assignment to x, which began at `start`.
fn set(
    alloc: Global,
    tokens: &[Token],
    start: usize,
    at: usize,
    x: Expr,
) -> Result<(Simple, usize), ReadFault>
    requires order { start < at }
    requires within { at ≤ length tokens.now }
    ensures forward { IfOk result (λ f. (at < f.1) × (f.1 ≤ length tokens.now)) }
    ensures exact { Gives tokens.now result (λ n. set_by (expr n) (drop start tokens.now) x (drop at tokens.now)) }
{
    let (value, end) = whole(alloc, tokens, at)?;
    Ok((Simple::Assign(extent(tokens, start, end), x, value), end))
}

// The right side of a compound assignment to x, which began at `start`.
fn change(
    alloc: Global,
    tokens: &[Token],
    start: usize,
    at: usize,
    x: Expr,
    op: Bin,
) -> Result<(Simple, usize), ReadFault>
    requires order { start < at }
    requires within { at ≤ length tokens.now }
    ensures forward { IfOk result (λ f. (at < f.1) × (f.1 ≤ length tokens.now)) }
    ensures exact { Gives tokens.now result (λ n. change_by (expr n) (drop start tokens.now) x op (drop at tokens.now)) }
{
    let (value, end) = whole(alloc, tokens, at)?;
    Ok((
        Simple::Change(extent(tokens, start, end), x, op, value),
        end,
    ))
}

// An assignment to x, which began at `start`; or else x alone.
fn assigned(
    alloc: Global,
    tokens: &[Token],
    start: usize,
    at: usize,
    x: Expr,
    called: bool,
) -> Result<(Simple, usize), ReadFault>
    requires order { start < at }
    requires within { at ≤ length tokens.now }
    ensures forward { IfOk result (λ f. (at ≤ f.1) × (f.1 ≤ length tokens.now)) }
    ensures exact { Gives tokens.now result (λ n. assign_by (expr n) (drop start tokens.now) (x, drop at tokens.now) (call_by (drop start tokens.now) ((x, called), drop at tokens.now))) }
{
    if is_at(tokens, at, Terminal::Assign) {
        return set(alloc, tokens, start, at + 1, x);
    }
    match compound_at(tokens, at) {
        None => call_alone(tokens, start, at, x, called),
        Some(op) => change(alloc, tokens, start, at + 1, x, op),
    }
}

// What makes a statement of a postfix expression that began at `start`.
fn chain(
    alloc: Global,
    tokens: &[Token],
    start: usize,
    at: usize,
    x: Expr,
    called: bool,
) -> Result<(Simple, usize), ReadFault>
    requires order { start < at }
    requires within { at ≤ length tokens.now }
    ensures forward { IfOk result (λ f. (at ≤ f.1) × (f.1 ≤ length tokens.now)) }
    ensures exact { Gives tokens.now result (λ n. chain_by (expr n) (drop start tokens.now) ((x, called), drop at tokens.now)) }
{
    match step_at(tokens, at) {
        None => assigned(alloc, tokens, start, at, x, called),
        Some(up) => Ok((Simple::Step(extent(tokens, start, at + 1), x, up), at + 1)),
    }
}

// A simple statement that begins with its left side.
fn left(alloc: Global, tokens: &[Token], at: usize) -> Result<(Simple, usize), ReadFault>
    requires { at ≤ length tokens.now }
    ensures forward { IfOk result (λ f. (at < f.1) × (f.1 ≤ length tokens.now)) }
    ensures exact { Gives tokens.now result (λ n. left_by (expr n) (unary n) (postfix n) (drop at tokens.now)) }
{
    match prefix_at(tokens, at) {
        None => {
            let ((x, called), next) = postfix(alloc, tokens, at)?;
            chain(alloc, tokens, at, next, x, called)
        }
        Some(_) => {
            let (x, next) = unary(alloc, tokens, at)?;
            assigned(alloc, tokens, at, next, x, false)
        }
    }
}

/// A simple statement.
pub fn simple(alloc: Global, tokens: &[Token], at: usize) -> Result<(Simple, usize), ReadFault>
    requires { at ≤ length tokens.now }
    ensures forward { IfOk result (λ f. (at < f.1) × (f.1 ≤ length tokens.now)) }
    ensures exact { Gives tokens.now result (λ n. simple_stmt n (drop at tokens.now)) }
{
    match step_at(tokens, at) {
        None => left(alloc, tokens, at),
        Some(up) => {
            let (x, end) = unary(alloc, tokens, at + 1)?;
            Ok((Simple::Step(extent(tokens, at, end), x, up), end))
        }
    }
}

/// A simple statement and the terminal behind it.
pub fn simple_until(
    alloc: Global,
    tokens: &[Token],
    at: usize,
    what: Terminal,
) -> Result<(Simple, usize), ReadFault>
    requires { at ≤ length tokens.now }
    ensures forward { IfOk result (λ f. (at < f.1) × (f.1 ≤ length tokens.now)) }
    ensures exact { Gives tokens.now result (λ n. until what (simple_stmt n) (drop at tokens.now)) }
{
    let (act, next) = simple(alloc, tokens, at)?;
    if !is_at(tokens, next, what) {
        return Err(ReadFault::Syntax(next));
    }
    Ok((act, next + 1))
}
