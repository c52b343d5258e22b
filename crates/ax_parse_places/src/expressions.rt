//! How expressions and simple statements go on.
//!
//! Each function says whether the token can be the first of a part, and puts what is then still to come on the stack.
ghost use Rattle.std.specs.Prelude.{◌≡◌, true, false, reverse, Some, IfOk};
ghost use Rattle.ax_parse_places.specs.Turns.{moved, parens as parens_of, primary as primary_of, unary as unary_of, posts as posts_of, asks as asks_of, more as more_of, args as args_of, plainly as plainly_of, assigned as assigned_of, behind as behind_of, plain as plain_of, target as target_of, simple as simple_of, post_by};

use crate::kinds::{is_name, is_number};
use crate::stack::{push, taken};
use crate::symbols::{Listing, Symbol};
use ax_parse_grammar::operators::{Post, binary_of, compound_of, post_of, prefix_of, step_of};
use ax_parse_grammar::terminals::{Terminal, fits};
use ax_prog::tokens::Kind;
use sqlite_items::Items;
use std::alloc::AllocError;

fn parens(stack: &mut Items<Symbol>, kind: &Kind) -> Result<bool, AllocError>
    ensures { IfOk result (λ b. moved b stack.new ≡ parens_of kind.now (reverse stack.old)) }
{
    if fits(Terminal::OpenRound, kind) {
        let close = Symbol::Take(Terminal::CloseRound);
        return taken(stack, &[Symbol::Unary, Symbol::More, close]);
    }
    Ok(false)
}

fn primary(stack: &mut Items<Symbol>, kind: &Kind) -> Result<bool, AllocError>
    ensures { IfOk result (λ b. moved b stack.new ≡ primary_of kind.now (reverse stack.old)) }
{
    if is_name(kind) || is_number(kind) {
        return Ok(true);
    }
    parens(stack, kind)
}
/// A unary expression, up to the marks behind its operand.
pub fn unary(stack: &mut Items<Symbol>, kind: &Kind) -> Result<bool, AllocError>
    ensures { IfOk result (λ b. moved b stack.new ≡ unary_of kind.now (reverse stack.old)) }
{
    match prefix_of(kind) {
        Some(_) => taken(stack, &[Symbol::Unary]),
        None => {
            push(stack, &[Symbol::Posts])?;
            primary(stack, kind)
        }
    }
}

// Behind a mark that stands behind an operand.
fn post(
    stack: &mut Items<Symbol>,
    mark: Post,
    back: Symbol,
    called: Symbol,
) -> Result<bool, AllocError>
    ensures moved { IfOk result (λ b. moved b stack.new ≡ Some (post_by mark back called (reverse stack.old))) }
    ensures taken { IfOk result (λ b. b ≡ true) }
{
    let close = Symbol::Take(Terminal::CloseSquare);
    match mark {
        Post::Index => taken(stack, &[Symbol::Unary, Symbol::More, close, back]),
        Post::Member => taken(stack, &[Symbol::Name, back]),
        Post::Arrow => taken(stack, &[Symbol::Name, back]),
        Post::Call => taken(stack, &[Symbol::Args, called]),
    }
}

/// The marks behind an operand.
pub fn posts(stack: &mut Items<Symbol>, kind: &Kind) -> Result<bool, AllocError>
    ensures moved { IfOk result (λ b. moved b stack.new ≡ posts_of kind.now (reverse stack.old)) }
    ensures same { IfOk result (λ b. b ≡ false → stack.new ≡ stack.old) }
{
    match post_of(kind) {
        Some(mark) => post(stack, mark, Symbol::Posts, Symbol::Posts),
        None => Ok(false),
    }
}

fn asks(stack: &mut Items<Symbol>, kind: &Kind) -> Result<bool, AllocError>
    ensures moved { IfOk result (λ b. moved b stack.new ≡ asks_of kind.now (reverse stack.old)) }
    ensures same { IfOk result (λ b. b ≡ false → stack.new ≡ stack.old) }
{
    if fits(Terminal::Question, kind) {
        let colon = Symbol::Take(Terminal::Colon);
        return taken(
            stack,
            &[
                Symbol::Unary,
                Symbol::More,
                colon,
                Symbol::Unary,
                Symbol::More,
            ],
        );
    }
    Ok(false)
}

/// What goes on behind a unary expression.
pub fn more(stack: &mut Items<Symbol>, kind: &Kind) -> Result<bool, AllocError>
    ensures moved { IfOk result (λ b. moved b stack.new ≡ more_of kind.now (reverse stack.old)) }
    ensures same { IfOk result (λ b. b ≡ false → stack.new ≡ stack.old) }
{
    match binary_of(kind) {
        Some(_) => taken(stack, &[Symbol::Unary, Symbol::More]),
        None => asks(stack, kind),
    }
}

/// The arguments of a call.
pub fn args(stack: &mut Items<Symbol>, kind: &Kind) -> Result<bool, AllocError>
    ensures { IfOk result (λ b. moved b stack.new ≡ args_of kind.now (reverse stack.old)) }
{
    if fits(Terminal::CloseRound, kind) {
        return Ok(true);
    }
    push(stack, &[Symbol::More, Symbol::End(Listing::Args)])?;
    unary(stack, kind)
}

fn plainly(stack: &mut Items<Symbol>, kind: &Kind) -> Result<bool, AllocError>
    ensures moved { IfOk result (λ b. moved b stack.new ≡ plainly_of kind.now (reverse stack.old)) }
    ensures same { IfOk result (λ b. b ≡ false → stack.new ≡ stack.old) }
{
    if fits(Terminal::Assign, kind) {
        return taken(stack, &[Symbol::Unary, Symbol::More]);
    }
    Ok(false)
}

/// The mark of an assignment.
pub fn assigned(stack: &mut Items<Symbol>, kind: &Kind) -> Result<bool, AllocError>
    ensures moved { IfOk result (λ b. moved b stack.new ≡ assigned_of kind.now (reverse stack.old)) }
    ensures same { IfOk result (λ b. b ≡ false → stack.new ≡ stack.old) }
{
    match compound_of(kind) {
        Some(_) => taken(stack, &[Symbol::Unary, Symbol::More]),
        None => plainly(stack, kind),
    }
}

fn behind(stack: &mut Items<Symbol>, kind: &Kind) -> Result<bool, AllocError>
    ensures moved { IfOk result (λ b. moved b stack.new ≡ behind_of kind.now (reverse stack.old)) }
    ensures same { IfOk result (λ b. b ≡ false → stack.new ≡ stack.old) }
{
    match step_of(kind) {
        Some(_) => Ok(true),
        None => assigned(stack, kind),
    }
}

/// Behind an operand with which a simple statement begins.
pub fn plain(stack: &mut Items<Symbol>, kind: &Kind) -> Result<bool, AllocError>
    ensures moved { IfOk result (λ b. moved b stack.new ≡ plain_of kind.now (reverse stack.old)) }
    ensures same { IfOk result (λ b. b ≡ false → stack.new ≡ stack.old) }
{
    match post_of(kind) {
        Some(mark) => post(stack, mark, Symbol::Plain, Symbol::Called),
        None => behind(stack, kind),
    }
}

fn target(stack: &mut Items<Symbol>, kind: &Kind) -> Result<bool, AllocError>
    ensures { IfOk result (λ b. moved b stack.new ≡ target_of kind.now (reverse stack.old)) }
{
    match prefix_of(kind) {
        Some(_) => taken(stack, &[Symbol::Unary, Symbol::Assigned]),
        None => {
            push(stack, &[Symbol::Plain])?;
            primary(stack, kind)
        }
    }
}

/// A simple statement.
pub fn simple(stack: &mut Items<Symbol>, kind: &Kind) -> Result<bool, AllocError>
    ensures { IfOk result (λ b. moved b stack.new ≡ simple_of kind.now (reverse stack.old)) }
{
    match step_of(kind) {
        Some(_) => taken(stack, &[Symbol::Unary]),
        None => target(stack, kind),
    }
}
