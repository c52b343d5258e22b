//! How statements go on.
ghost use Rattle.std.specs.Prelude.{◌≡◌, false, reverse, Some, IfOk};
ghost use Rattle.ax_parse_places.specs.Turns.{moved, loop_of, read_of, print_of, for_of, if_of, while_of, simple_part as simple_part_of, test_of, stmt_by as stmt_by_of, stmt as stmt_of, item_by as item_by_of, items as items_of, otherwise as otherwise_of, value as value_of, opening_by as opening_by_of, opening as opening_of, step_part as step_part_of};

use crate::declarations::decl;
use crate::expressions::{simple, unary};
use crate::stack::{push, taken};
use crate::symbols::Symbol;
use ax_parse_grammar::starts::{Start, start_of};
use ax_parse_grammar::terminals::{Terminal, fits};
use ax_prog::tokens::Kind;
use sqlite_items::Items;
use std::alloc::AllocError;

// An expression in parentheses.
fn test(stack: &mut Items<Symbol>) -> Result<bool, AllocError>
    ensures { IfOk result (λ b. moved b stack.new ≡ Some (test_of (reverse stack.old))) }
{
    let open = Symbol::Take(Terminal::OpenRound);
    let close = Symbol::Take(Terminal::CloseRound);
    taken(stack, &[open, Symbol::Unary, Symbol::More, close])
}

fn loops(stack: &mut Items<Symbol>) -> Result<bool, AllocError>
    ensures { IfOk result (λ b. moved b stack.new ≡ Some (loop_of (reverse stack.old))) }
{
    push(stack, &[Symbol::Take(Terminal::Semicolon)])?;
    let open = Symbol::Take(Terminal::OpenRound);
    let close = Symbol::Take(Terminal::CloseRound);
    push(stack, &[open, Symbol::Unary, Symbol::More, close])?;
    taken(stack, &[Symbol::Stmt, Symbol::Take(Terminal::While)])
}

fn reads(stack: &mut Items<Symbol>) -> Result<bool, AllocError>
    ensures { IfOk result (λ b. moved b stack.new ≡ Some (read_of (reverse stack.old))) }
{
    let close = Symbol::Take(Terminal::CloseRound);
    push(
        stack,
        &[Symbol::Unary, close, Symbol::Take(Terminal::Semicolon)],
    )?;
    push(
        stack,
        &[Symbol::Take(Terminal::Comma), Symbol::Take(Terminal::Amp)],
    )?;
    taken(
        stack,
        &[
            Symbol::Take(Terminal::OpenRound),
            Symbol::Take(Terminal::Format),
        ],
    )
}

fn prints(stack: &mut Items<Symbol>) -> Result<bool, AllocError>
    ensures { IfOk result (λ b. moved b stack.new ≡ Some (print_of (reverse stack.old))) }
{
    let close = Symbol::Take(Terminal::CloseRound);
    push(
        stack,
        &[
            Symbol::Unary,
            Symbol::More,
            close,
            Symbol::Take(Terminal::Semicolon),
        ],
    )?;
    taken(
        stack,
        &[
            Symbol::Take(Terminal::OpenRound),
            Symbol::Format,
            Symbol::Take(Terminal::Comma),
        ],
    )
}

fn counts(stack: &mut Items<Symbol>) -> Result<bool, AllocError>
    ensures { IfOk result (λ b. moved b stack.new ≡ Some (for_of (reverse stack.old))) }
{
    push(stack, &[Symbol::Value, Symbol::Step, Symbol::Stmt])?;
    taken(stack, &[Symbol::Take(Terminal::OpenRound), Symbol::Opening])
}

fn simple_part(stack: &mut Items<Symbol>, kind: &Kind) -> Result<bool, AllocError>
    ensures { IfOk result (λ b. moved b stack.new ≡ simple_part_of kind.now (reverse stack.old)) }
{
    push(stack, &[Symbol::Take(Terminal::Semicolon)])?;
    simple(stack, kind)
}

fn branch(stack: &mut Items<Symbol>) -> Result<bool, AllocError>
    ensures { IfOk result (λ b. moved b stack.new ≡ Some (if_of (reverse stack.old))) }
{
    push(stack, &[Symbol::Stmt, Symbol::Else])?;
    test(stack)
}

fn repeats(stack: &mut Items<Symbol>) -> Result<bool, AllocError>
    ensures { IfOk result (λ b. moved b stack.new ≡ Some (while_of (reverse stack.old))) }
{
    push(stack, &[Symbol::Stmt])?;
    test(stack)
}

fn stmt_by(stack: &mut Items<Symbol>, start: Start, kind: &Kind) -> Result<bool, AllocError>
    ensures { IfOk result (λ b. moved b stack.new ≡ stmt_by_of start kind.now (reverse stack.old)) }
{
    match start {
        Start::Empty => Ok(true),
        Start::Block => taken(stack, &[Symbol::Items]),
        Start::Decl => Ok(false),
        Start::If => branch(stack),
        Start::While => repeats(stack),
        Start::Do => loops(stack),
        Start::For => counts(stack),
        Start::Break => taken(stack, &[Symbol::Take(Terminal::Semicolon)]),
        Start::Continue => taken(stack, &[Symbol::Take(Terminal::Semicolon)]),
        Start::Return => taken(stack, &[Symbol::Value]),
        Start::Read => reads(stack),
        Start::Print => prints(stack),
        Start::Simple => simple_part(stack, kind),
    }
}

/// A statement.
pub fn stmt(stack: &mut Items<Symbol>, kind: &Kind) -> Result<bool, AllocError>
    ensures { IfOk result (λ b. moved b stack.new ≡ stmt_of kind.now (reverse stack.old)) }
{
    stmt_by(stack, start_of(kind), kind)
}

fn item(stack: &mut Items<Symbol>, start: Start, kind: &Kind) -> Result<bool, AllocError>
    ensures { IfOk result (λ b. moved b stack.new ≡ item_by_of start kind.now (reverse stack.old)) }
{
    push(stack, &[Symbol::Items])?;
    match start {
        Start::Decl => decl(stack, kind),
        _ => stmt_by(stack, start, kind),
    }
}

/// The items of a block.
pub fn items(stack: &mut Items<Symbol>, kind: &Kind) -> Result<bool, AllocError>
    ensures { IfOk result (λ b. moved b stack.new ≡ items_of kind.now (reverse stack.old)) }
{
    if fits(Terminal::CloseCurly, kind) {
        return Ok(true);
    }
    item(stack, start_of(kind), kind)
}

/// An `else`.
pub fn otherwise(stack: &mut Items<Symbol>, kind: &Kind) -> Result<bool, AllocError>
    ensures moved { IfOk result (λ b. moved b stack.new ≡ otherwise_of kind.now (reverse stack.old)) }
    ensures same { IfOk result (λ b. b ≡ false → stack.new ≡ stack.old) }
{
    if fits(Terminal::Else, kind) {
        return taken(stack, &[Symbol::Stmt]);
    }
    Ok(false)
}

/// An expression or none, and `;`.
pub fn value(stack: &mut Items<Symbol>, kind: &Kind) -> Result<bool, AllocError>
    ensures { IfOk result (λ b. moved b stack.new ≡ value_of kind.now (reverse stack.old)) }
{
    if fits(Terminal::Semicolon, kind) {
        return Ok(true);
    }
    push(stack, &[Symbol::More, Symbol::Take(Terminal::Semicolon)])?;
    unary(stack, kind)
}

fn opening_by(stack: &mut Items<Symbol>, start: Start, kind: &Kind) -> Result<bool, AllocError>
    ensures { IfOk result (λ b. moved b stack.new ≡ opening_by_of start kind.now (reverse stack.old)) }
{
    match start {
        Start::Decl => decl(stack, kind),
        _ => simple_part(stack, kind),
    }
}

/// How a `for` begins.
pub fn opening(stack: &mut Items<Symbol>, kind: &Kind) -> Result<bool, AllocError>
    ensures { IfOk result (λ b. moved b stack.new ≡ opening_of kind.now (reverse stack.old)) }
{
    if fits(Terminal::Semicolon, kind) {
        return Ok(true);
    }
    opening_by(stack, start_of(kind), kind)
}

/// The third part of a `for`.
pub fn step_part(stack: &mut Items<Symbol>, kind: &Kind) -> Result<bool, AllocError>
    ensures { IfOk result (λ b. moved b stack.new ≡ step_part_of kind.now (reverse stack.old)) }
{
    if fits(Terminal::CloseRound, kind) {
        return Ok(true);
    }
    push(stack, &[Symbol::Take(Terminal::CloseRound)])?;
    simple(stack, kind)
}
