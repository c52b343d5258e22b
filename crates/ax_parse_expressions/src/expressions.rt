//! Reading expressions.
//!
//! What follows an operand in a row (marks, operators and operands, arguments) is read by loops, and what nests by recursion.
ghost use Rattle.std.specs.Prelude.{◌≡◌, ℕ, suc, ◌+◌, ◌≤◌, ◌<◌, IfOk, length, drop};
ghost use Rattle.ax_parse_grammar.specs.Reading.{until};
ghost use Rattle.ax_parse_grammar.specs.ReadExpressions.{expr, climb, unary, postfix, primary, args, many, post_by};
ghost use Rattle.ax_parse_expressions.specs.Answers.{Gives, branches_by};

use crate::faults::ReadFault;
use crate::leaves::{arrow, leaf, member};
use crate::nodes::{binary_node, call_node, cond_node, index_node, unary_node};
use crate::tokens::{extent, is_at, op_at, post_at, prefix_at};
use ax_parse_grammar::operators::{Post, level};
use ax_parse_grammar::terminals::Terminal;
use ax_parse_grammar::tree::Expr;
use ax_prog::tokens::Token;
use sqlite_items::Items;
use std::alloc::Global;

/// An expression.
#[cycle(expressions)]
pub fn whole(alloc: Global, tokens: &[Token], at: usize) -> Result<(Expr, usize), ReadFault>
    requires { at ≤ length tokens.now }
    ensures forward { IfOk result (λ f. (at < f.1) × (f.1 ≤ length tokens.now)) }
    ensures exact { Gives tokens.now result (λ n. expr n (drop at tokens.now)) }
{
    let (test, next) = climb(alloc, tokens, at, 1)?;
    if !is_at(tokens, next, Terminal::Question) {
        return Ok((test, next));
    }
    branches(alloc, tokens, at, next + 1, test)
}

// The branches of `? :`; the condition begins at `start`.
#[cycle(expressions)]
fn branches(
    alloc: Global,
    tokens: &[Token],
    start: usize,
    at: usize,
    test: Expr,
) -> Result<(Expr, usize), ReadFault>
    requires order { start < at }
    requires within { at ≤ length tokens.now }
    ensures forward { IfOk result (λ f. (at < f.1) × (f.1 ≤ length tokens.now)) }
    ensures exact { Gives tokens.now result (λ n. branches_by (expr n) (drop start tokens.now) test (drop at tokens.now)) }
{
    let (a, next) = whole_until(alloc, tokens, at, Terminal::Colon)?;
    let (b, end) = whole(alloc, tokens, next)?;
    let made = cond_node(alloc, extent(tokens, start, end), test, a, b)?;
    Ok((made, end))
}

/// An expression and the terminal behind it.
#[cycle(expressions)]
pub fn whole_until(
    alloc: Global,
    tokens: &[Token],
    at: usize,
    what: Terminal,
) -> Result<(Expr, usize), ReadFault>
    requires { at ≤ length tokens.now }
    ensures forward { IfOk result (λ f. (at < f.1) × (f.1 ≤ length tokens.now)) }
    ensures exact { Gives tokens.now result (λ n. until what (expr n) (drop at tokens.now)) }
{
    let (found, next) = whole(alloc, tokens, at)?;
    if !is_at(tokens, next, what) {
        return Err(ReadFault::Syntax(next));
    }
    Ok((found, next + 1))
}

// Operands, and binary operators that bind at least as tightly as `min` between them.
#[cycle(expressions)]
fn climb(alloc: Global, tokens: &[Token], at: usize, min: usize) -> Result<(Expr, usize), ReadFault>
    requires place { at ≤ length tokens.now }
    requires level { min ≤ 11 }
    ensures forward { IfOk result (λ f. (at < f.1) × (f.1 ≤ length tokens.now)) }
    ensures exact { Gives tokens.now result (λ n. climb n min (drop at tokens.now)) }
{
    let (mut left, mut next) = unary(alloc, tokens, at)?;
    while let Some(op) = op_at(tokens, next, min) {
        let (right, end) = climb(alloc, tokens, next + 1, level(op) + 1)?;
        left = binary_node(alloc, extent(tokens, at, end), op, left, right)?;
        next = end;
    }
    Ok((left, next))
}

/// A unary expression.
#[cycle(expressions)]
pub fn unary(alloc: Global, tokens: &[Token], at: usize) -> Result<(Expr, usize), ReadFault>
    requires { at ≤ length tokens.now }
    ensures forward { IfOk result (λ f. (at < f.1) × (f.1 ≤ length tokens.now)) }
    ensures exact { Gives tokens.now result (λ n. unary n (drop at tokens.now)) }
{
    match prefix_at(tokens, at) {
        None => {
            let ((found, _), next) = postfix(alloc, tokens, at)?;
            Ok((found, next))
        }
        Some(op) => {
            let (under, next) = unary(alloc, tokens, at + 1)?;
            let made = unary_node(alloc, extent(tokens, at, next), op, under)?;
            Ok((made, next))
        }
    }
}

/// A postfix expression, and whether it is a call without parentheses around it.
#[cycle(expressions)]
pub fn postfix(
    alloc: Global,
    tokens: &[Token],
    at: usize,
) -> Result<((Expr, bool), usize), ReadFault>
    requires { at ≤ length tokens.now }
    ensures forward { IfOk result (λ f. (at < f.1) × (f.1 ≤ length tokens.now)) }
    ensures exact { Gives tokens.now result (λ n. postfix n (drop at tokens.now)) }
{
    let (mut found, mut next) = primary(alloc, tokens, at)?;
    let mut called = false;
    while let Some(mark) = post_at(tokens, next) {
        let (made, end) = link(alloc, tokens, at, next + 1, found, mark)?;
        found = made.0;
        called = made.1;
        next = end;
    }
    Ok(((found, called), next))
}

// What stands behind a mark and makes more of x, which begins at `start`.
#[cycle(expressions)]
fn link(
    alloc: Global,
    tokens: &[Token],
    start: usize,
    at: usize,
    x: Expr,
    mark: Post,
) -> Result<((Expr, bool), usize), ReadFault>
    requires order { start < at }
    requires within { at ≤ length tokens.now }
    ensures forward { IfOk result (λ f. (at < f.1) × (f.1 ≤ length tokens.now)) }
    ensures exact { Gives tokens.now result (λ n. post_by (expr n) (args n) (drop start tokens.now) x mark (drop at tokens.now)) }
{
    match mark {
        Post::Index => index(alloc, tokens, start, at, x),
        Post::Member => member(alloc, tokens, start, at, x),
        Post::Arrow => arrow(alloc, tokens, start, at, x),
        Post::Call => call(alloc, tokens, start, at, x),
    }
}

// The index behind `x[`, and `]`.
#[cycle(expressions)]
fn index(
    alloc: Global,
    tokens: &[Token],
    start: usize,
    at: usize,
    x: Expr,
) -> Result<((Expr, bool), usize), ReadFault>
    requires order { start < at }
    requires within { at ≤ length tokens.now }
    ensures forward { IfOk result (λ f. (at < f.1) × (f.1 ≤ length tokens.now)) }
    ensures exact { Gives tokens.now result (λ n. post_by (expr n) (args n) (drop start tokens.now) x Post.Index (drop at tokens.now)) }
{
    let (i, next) = whole_until(alloc, tokens, at, Terminal::CloseSquare)?;
    let made = index_node(alloc, extent(tokens, start, next), x, i)?;
    Ok(((made, false), next))
}

// The arguments behind `x(`, and `)`.
#[cycle(expressions)]
fn call(
    alloc: Global,
    tokens: &[Token],
    start: usize,
    at: usize,
    x: Expr,
) -> Result<((Expr, bool), usize), ReadFault>
    requires order { start < at }
    requires within { at ≤ length tokens.now }
    ensures forward { IfOk result (λ f. (at < f.1) × (f.1 ≤ length tokens.now)) }
    ensures exact { Gives tokens.now result (λ n. post_by (expr n) (args n) (drop start tokens.now) x Post.Call (drop at tokens.now)) }
{
    let (xs, next) = args(alloc, tokens, at)?;
    let made = call_node(alloc, extent(tokens, start, next), x, xs)?;
    Ok(((made, true), next))
}

// A name, a number, or an expression in parentheses.
#[cycle(expressions)]
fn primary(alloc: Global, tokens: &[Token], at: usize) -> Result<(Expr, usize), ReadFault>
    requires { at ≤ length tokens.now }
    ensures forward { IfOk result (λ f. (at < f.1) × (f.1 ≤ length tokens.now)) }
    ensures exact { Gives tokens.now result (λ n. primary n (drop at tokens.now)) }
{
    if is_at(tokens, at, Terminal::OpenRound) {
        return whole_until(alloc, tokens, at + 1, Terminal::CloseRound);
    }
    leaf(alloc, tokens, at)
}

/// The arguments of a call, and `)`.
#[cycle(expressions)]
pub fn args(alloc: Global, tokens: &[Token], at: usize) -> Result<(Items<Expr>, usize), ReadFault>
    requires { at ≤ length tokens.now }
    ensures forward { IfOk result (λ f. (at < f.1) × (f.1 ≤ length tokens.now)) }
    ensures exact { Gives tokens.now result (λ n. args n (drop at tokens.now)) }
{
    if is_at(tokens, at, Terminal::CloseRound) {
        return Ok((Items::new(alloc), at + 1));
    }
    let (xs, next) = many(alloc, tokens, at)?;
    if !is_at(tokens, next, Terminal::CloseRound) {
        return Err(ReadFault::Syntax(next));
    }
    Ok((xs, next + 1))
}

// Expressions with commas between them.
#[cycle(expressions)]
fn many(alloc: Global, tokens: &[Token], at: usize) -> Result<(Items<Expr>, usize), ReadFault>
    requires { at ≤ length tokens.now }
    ensures forward { IfOk result (λ f. (at < f.1) × (f.1 ≤ length tokens.now)) }
    ensures exact { Gives tokens.now result (λ n. many n (drop at tokens.now)) }
{
    let mut found = Items::new(alloc);
    let (first, mut next) = whole(alloc, tokens, at)?;
    found.push(first)?;
    while is_at(tokens, next, Terminal::Comma) {
        let (another, end) = whole(alloc, tokens, next + 1)?;
        found.push(another)?;
        next = end;
    }
    Ok((found, next))
}
