//! Reading statements that hold no statement.
ghost use Rattle.std.specs.Prelude.{ℕ, ◌+◌, ◌≤◌, ◌<◌, IfOk, length, drop};
ghost use Rattle.ax_parse_grammar.specs.ReadStatements.{stmt_by, stmt, items};
ghost use Rattle.ax_parse_expressions.specs.Answers.{Gives};

use crate::headers::maybe_whole;
use crate::simples::simple_until;
use crate::terminals::passes;
use ax_parse_expressions::tokens::{extent, is_at};
use ax_parse_expressions::{ReadFault, unary};
use ax_parse_grammar::starts::Start;
use ax_parse_grammar::terminals::Terminal;
use ax_parse_grammar::tree::Stmt;
use ax_prog::tokens::Token;
use std::alloc::Global;

/// A `scanf`, which stands at `at`.
pub fn read_call(alloc: Global, tokens: &[Token], at: usize) -> Result<(Stmt, usize), ReadFault>
    requires { at < length tokens.now }
    ensures forward { IfOk result (λ f. (at < f.1) × (f.1 ≤ length tokens.now)) }
    ensures exact { Gives tokens.now result (λ n. stmt_by n (stmt n) (items n) (drop at tokens.now) (drop (at + 1) tokens.now) Start.Read) }
{
    let inner = passes(
        tokens,
        at + 1,
        &[
            Terminal::OpenRound,
            Terminal::Format,
            Terminal::Comma,
            Terminal::Amp,
        ],
    )?;
    let (target, next) = unary(alloc, tokens, inner)?;
    let end = passes(tokens, next, &[Terminal::CloseRound, Terminal::Semicolon])?;
    Ok((Stmt::Read(extent(tokens, at, end), target), end))
}

/// A `return`, which stands at `at`.
pub fn return_value(alloc: Global, tokens: &[Token], at: usize) -> Result<(Stmt, usize), ReadFault>
    requires { at < length tokens.now }
    ensures forward { IfOk result (λ f. (at < f.1) × (f.1 ≤ length tokens.now)) }
    ensures exact { Gives tokens.now result (λ n. stmt_by n (stmt n) (items n) (drop at tokens.now) (drop (at + 1) tokens.now) Start.Return) }
{
    let (value, end) = maybe_whole(alloc, tokens, at + 1, Terminal::Semicolon)?;
    Ok((Stmt::Return(extent(tokens, at, end), value), end))
}

/// A simple statement and `;`.
pub fn simple_alone(alloc: Global, tokens: &[Token], at: usize) -> Result<(Stmt, usize), ReadFault>
    requires { at < length tokens.now }
    ensures forward { IfOk result (λ f. (at < f.1) × (f.1 ≤ length tokens.now)) }
    ensures exact { Gives tokens.now result (λ n. stmt_by n (stmt n) (items n) (drop at tokens.now) (drop (at + 1) tokens.now) Start.Simple) }
{
    let (act, end) = simple_until(alloc, tokens, at, Terminal::Semicolon)?;
    Ok((Stmt::Simple(extent(tokens, at, end), act), end))
}

/// A `break`, which stands at `at`.
pub fn break_alone(tokens: &[Token], at: usize) -> Result<(Stmt, usize), ReadFault>
    requires { at < length tokens.now }
    ensures forward { IfOk result (λ f. (at < f.1) × (f.1 ≤ length tokens.now)) }
    ensures exact { Gives tokens.now result (λ n. stmt_by n (stmt n) (items n) (drop at tokens.now) (drop (at + 1) tokens.now) Start.Break) }
{
    if !is_at(tokens, at + 1, Terminal::Semicolon) {
        return Err(ReadFault::Syntax(at + 1));
    }
    Ok((Stmt::Break(extent(tokens, at, at + 2)), at + 2))
}

/// A `continue`, which stands at `at`.
pub fn continue_alone(tokens: &[Token], at: usize) -> Result<(Stmt, usize), ReadFault>
    requires { at < length tokens.now }
    ensures forward { IfOk result (λ f. (at < f.1) × (f.1 ≤ length tokens.now)) }
    ensures exact { Gives tokens.now result (λ n. stmt_by n (stmt n) (items n) (drop at tokens.now) (drop (at + 1) tokens.now) Start.Continue) }
{
    if !is_at(tokens, at + 1, Terminal::Semicolon) {
        return Err(ReadFault::Syntax(at + 1));
    }
    Ok((Stmt::Continue(extent(tokens, at, at + 2)), at + 2))
}
