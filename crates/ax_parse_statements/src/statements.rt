//! Reading statements.
//!
//! Items of a block are read by a loop, and what nests by recursion.
ghost use Rattle.std.specs.Prelude.{ℕ, ◌+◌, ◌≤◌, ◌<◌, IfOk, length, drop};
ghost use Rattle.ax_parse_grammar.specs.ReadDeclarations.{decl};
ghost use Rattle.ax_parse_grammar.specs.ReadStatements.{stmt_by, stmt, items, item_by, else_by};
ghost use Rattle.ax_parse_expressions.specs.Answers.{Gives};
ghost use Rattle.ax_parse_statements.specs.StatementsFound.{looped_by};

use crate::for_headers::for_header;
use crate::headers::{begins_decl, do_end, start_at, test};
use crate::plain::{break_alone, continue_alone, read_call, return_value, simple_alone};
use crate::prints::print_call;
use crate::statement_parts::{decl_item, empty, for_node};
use ax_parse_expressions::ReadFault;
use ax_parse_expressions::tokens::{extent, is_at};
use ax_parse_grammar::starts::Start;
use ax_parse_grammar::terminals::Terminal;
use ax_parse_grammar::tree::{Expr, Opening, Simple, Stmt};
use ax_prog::tokens::Token;
use sqlite_items::{Boxed, Items};
use std::alloc::Global;

/// A statement. An `else` belongs to the nearest `if` that has none.
#[cycle(statements)]
pub fn statement(alloc: Global, tokens: &[Token], at: usize) -> Result<(Stmt, usize), ReadFault>
    requires { at ≤ length tokens.now }
    ensures forward { IfOk result (λ f. (at < f.1) × (f.1 ≤ length tokens.now)) }
    ensures exact { Gives tokens.now result (λ n. stmt n (drop at tokens.now)) }
{
    match start_at(tokens, at) {
        None => Err(ReadFault::Syntax(at)),
        Some(start) => begun(alloc, tokens, at, start),
    }
}

// A statement whose first token stands at `at`.
#[cycle(statements)]
fn begun(
    alloc: Global,
    tokens: &[Token],
    at: usize,
    start: Start,
) -> Result<(Stmt, usize), ReadFault>
    requires { at < length tokens.now }
    ensures forward { IfOk result (λ f. (at < f.1) × (f.1 ≤ length tokens.now)) }
    ensures exact { Gives tokens.now result (λ n. stmt_by n (stmt n) (items n) (drop at tokens.now) (drop (at + 1) tokens.now) start) }
{
    match start {
        Start::Empty => empty(tokens, at),
        Start::Block => block(alloc, tokens, at),
        Start::Decl => Err(ReadFault::Syntax(at)),
        Start::If => if_at(alloc, tokens, at),
        Start::While => while_at(alloc, tokens, at),
        Start::Do => do_at(alloc, tokens, at),
        Start::For => for_at(alloc, tokens, at),
        Start::Break => break_alone(tokens, at),
        Start::Continue => continue_alone(tokens, at),
        Start::Return => return_value(alloc, tokens, at),
        Start::Read => read_call(alloc, tokens, at),
        Start::Print => print_call(alloc, tokens, at),
        Start::Simple => simple_alone(alloc, tokens, at),
    }
}

// A statement, in a box.
#[cycle(statements)]
fn boxed(alloc: Global, tokens: &[Token], at: usize) -> Result<(Boxed<Stmt>, usize), ReadFault>
    requires { at ≤ length tokens.now }
    ensures forward { IfOk result (λ f. (at < f.1) × (f.1 ≤ length tokens.now)) }
    ensures exact { Gives tokens.now result (λ n. stmt n (drop at tokens.now)) }
{
    let (found, end) = statement(alloc, tokens, at)?;
    let made = Boxed::new(alloc, found)?;
    Ok((made, end))
}

// An `if`, which stands at `at`.
#[cycle(statements)]
fn if_at(alloc: Global, tokens: &[Token], at: usize) -> Result<(Stmt, usize), ReadFault>
    requires { at < length tokens.now }
    ensures forward { IfOk result (λ f. (at < f.1) × (f.1 ≤ length tokens.now)) }
    ensures exact { Gives tokens.now result (λ n. stmt_by n (stmt n) (items n) (drop at tokens.now) (drop (at + 1) tokens.now) Start.If) }
{
    let (test, next) = test(alloc, tokens, at + 1)?;
    let (body, end) = boxed(alloc, tokens, next)?;
    otherwise(alloc, tokens, at, end, test, body)
}

// What stands behind the first branch of an `if`, which began at `start`.
#[cycle(statements)]
fn otherwise(
    alloc: Global,
    tokens: &[Token],
    start: usize,
    at: usize,
    test: Expr,
    body: Boxed<Stmt>,
) -> Result<(Stmt, usize), ReadFault>
    requires order { start < at }
    requires within { at ≤ length tokens.now }
    ensures forward { IfOk result (λ f. (at ≤ f.1) × (f.1 ≤ length tokens.now)) }
    ensures exact { Gives tokens.now result (λ n. else_by (stmt n) (drop start tokens.now) test (body, drop at tokens.now)) }
{
    if !is_at(tokens, at, Terminal::Else) {
        return Ok((Stmt::If(extent(tokens, start, at), test, body), at));
    }
    let (other, end) = boxed(alloc, tokens, at + 1)?;
    Ok((
        Stmt::IfElse(extent(tokens, start, end), test, body, other),
        end,
    ))
}

// A `while`, which stands at `at`.
#[cycle(statements)]
fn while_at(alloc: Global, tokens: &[Token], at: usize) -> Result<(Stmt, usize), ReadFault>
    requires { at < length tokens.now }
    ensures forward { IfOk result (λ f. (at < f.1) × (f.1 ≤ length tokens.now)) }
    ensures exact { Gives tokens.now result (λ n. stmt_by n (stmt n) (items n) (drop at tokens.now) (drop (at + 1) tokens.now) Start.While) }
{
    let (test, next) = test(alloc, tokens, at + 1)?;
    let (body, end) = boxed(alloc, tokens, next)?;
    Ok((Stmt::While(extent(tokens, at, end), test, body), end))
}

// A `do`, which stands at `at`.
#[cycle(statements)]
fn do_at(alloc: Global, tokens: &[Token], at: usize) -> Result<(Stmt, usize), ReadFault>
    requires { at < length tokens.now }
    ensures forward { IfOk result (λ f. (at < f.1) × (f.1 ≤ length tokens.now)) }
    ensures exact { Gives tokens.now result (λ n. stmt_by n (stmt n) (items n) (drop at tokens.now) (drop (at + 1) tokens.now) Start.Do) }
{
    let (body, next) = boxed(alloc, tokens, at + 1)?;
    let (test, end) = do_end(alloc, tokens, next)?;
    Ok((Stmt::Do(extent(tokens, at, end), body, test), end))
}

// A `for`, which stands at `at`.
#[cycle(statements)]
fn for_at(alloc: Global, tokens: &[Token], at: usize) -> Result<(Stmt, usize), ReadFault>
    requires { at < length tokens.now }
    ensures forward { IfOk result (λ f. (at < f.1) × (f.1 ≤ length tokens.now)) }
    ensures exact { Gives tokens.now result (λ n. stmt_by n (stmt n) (items n) (drop at tokens.now) (drop (at + 1) tokens.now) Start.For) }
{
    let (header, next) = for_header(alloc, tokens, at + 1)?;
    let begun = Boxed::new(alloc, header)?;
    looped(alloc, tokens, at, next, begun)
}

// The body of a `for`, which began at `start`. The header stays in a box while the body is read, so that a fault has one thing
// to drop.
#[cycle(statements)]
fn looped(
    alloc: Global,
    tokens: &[Token],
    start: usize,
    at: usize,
    header: Boxed<(Opening, (Option<Expr>, Option<Simple>))>,
) -> Result<(Stmt, usize), ReadFault>
    requires order { start < at }
    requires within { at ≤ length tokens.now }
    ensures forward { IfOk result (λ f. (at < f.1) × (f.1 ≤ length tokens.now)) }
    ensures exact { Gives tokens.now result (λ n. looped_by (stmt n) (drop start tokens.now) header (drop at tokens.now)) }
{
    let (body, end) = boxed(alloc, tokens, at)?;
    Ok((
        for_node(extent(tokens, start, end), header.into_inner(), body),
        end,
    ))
}

// A block, whose `{` stands at `at`.
#[cycle(statements)]
fn block(alloc: Global, tokens: &[Token], at: usize) -> Result<(Stmt, usize), ReadFault>
    requires { at < length tokens.now }
    ensures forward { IfOk result (λ f. (at < f.1) × (f.1 ≤ length tokens.now)) }
    ensures exact { Gives tokens.now result (λ n. stmt_by n (stmt n) (items n) (drop at tokens.now) (drop (at + 1) tokens.now) Start.Block) }
{
    let (found, end) = items(alloc, tokens, at + 1)?;
    Ok((Stmt::Block(extent(tokens, at, end), found), end))
}

// An item of a block.
#[cycle(statements)]
fn item(alloc: Global, tokens: &[Token], at: usize) -> Result<(Stmt, usize), ReadFault>
    requires { at ≤ length tokens.now }
    ensures forward { IfOk result (λ f. (at < f.1) × (f.1 ≤ length tokens.now)) }
    ensures exact { Gives tokens.now result (λ n. item_by (decl n) (stmt n) (drop at tokens.now)) }
{
    if begins_decl(tokens, at) {
        return decl_item(alloc, tokens, at);
    }
    statement(alloc, tokens, at)
}

/// The items of a block, and `}`.
#[cycle(statements)]
pub fn items(alloc: Global, tokens: &[Token], at: usize) -> Result<(Items<Stmt>, usize), ReadFault>
    requires { at ≤ length tokens.now }
    ensures forward { IfOk result (λ f. (at < f.1) × (f.1 ≤ length tokens.now)) }
    ensures exact { Gives tokens.now result (λ n. items n (drop at tokens.now)) }
{
    let mut found = Items::new(alloc);
    let mut next = at;
    while !is_at(tokens, next, Terminal::CloseCurly) {
        let (one, end) = item(alloc, tokens, next)?;
        found.push(one)?;
        next = end;
    }
    Ok((found, next + 1))
}
