//! How declarations go on.
ghost use Rattle.std.specs.Prelude.{◌≡◌, false, reverse, ◌++◌, Some, IfOk};
ghost use Rattle.ax_parse_places.specs.Turns.{moved, item_of, closer as closer_of, end as end_of, based as based_of, decl as decl_of, stars as stars_of, rest as rest_of, named as named_of, uncounted as uncounted_of, count as count_of, sizes as sizes_of, init as init_of, negative as negative_of, numbers as numbers_of, numbers_end as numbers_end_of, numbers_more as numbers_more_of, param as param_of, void_params as void_params_of, params as params_of, first_size as first_size_of, param_uncounted as param_uncounted_of, param_count as param_count_of, members as members_of};

use crate::expressions::unary;
use crate::kinds::is_number;
use crate::stack::{push, taken};
use crate::symbols::{Listing, Symbol};
use ax_parse_grammar::terminals::{Terminal, fits};
use ax_prog::tokens::Kind;
use sqlite_items::Items;
use std::alloc::AllocError;

// The mark behind the last item.
fn closer(which: Listing) -> Terminal
    ensures { result ≡ closer_of which }
{
    match which {
        Listing::Args => Terminal::CloseRound,
        Listing::Decl => Terminal::Semicolon,
        Listing::Members => Terminal::Semicolon,
        Listing::Params => Terminal::CloseRound,
    }
}

fn item(stack: &mut Items<Symbol>, which: Listing) -> Result<bool, AllocError>
    ensures { IfOk result (λ b. moved b stack.new ≡ Some (item_of which ++ reverse stack.old)) }
{
    match which {
        Listing::Args => taken(stack, &[Symbol::Unary, Symbol::More]),
        Listing::Decl => taken(stack, &[Symbol::Stars, Symbol::Name, Symbol::Named]),
        Listing::Members => taken(stack, &[Symbol::Stars, Symbol::Name, Symbol::Sizes]),
        Listing::Params => taken(stack, &[Symbol::Param]),
    }
}

/// Behind an item.
pub fn end(stack: &mut Items<Symbol>, which: Listing, kind: &Kind) -> Result<bool, AllocError>
    ensures { IfOk result (λ b. moved b stack.new ≡ end_of which kind.now (reverse stack.old)) }
{
    if fits(Terminal::Comma, kind) {
        push(stack, &[Symbol::End(which)])?;
        return item(stack, which);
    }
    Ok(fits(closer(which), kind))
}

// `int`, or `struct` and a tag.
fn based(stack: &mut Items<Symbol>, kind: &Kind) -> Result<bool, AllocError>
    ensures { IfOk result (λ b. moved b stack.new ≡ based_of kind.now (reverse stack.old)) }
{
    if fits(Terminal::Int, kind) {
        return Ok(true);
    }
    if fits(Terminal::Struct, kind) {
        return taken(stack, &[Symbol::Name]);
    }
    Ok(false)
}

/// A declaration.
pub fn decl(stack: &mut Items<Symbol>, kind: &Kind) -> Result<bool, AllocError>
    ensures { IfOk result (λ b. moved b stack.new ≡ decl_of kind.now (reverse stack.old)) }
{
    let end = Symbol::End(Listing::Decl);
    push(stack, &[Symbol::Stars, Symbol::Name, Symbol::Named, end])?;
    based(stack, kind)
}

/// Stars.
pub fn stars(stack: &mut Items<Symbol>, kind: &Kind) -> Result<bool, AllocError>
    ensures moved { IfOk result (λ b. moved b stack.new ≡ stars_of kind.now (reverse stack.old)) }
    ensures same { IfOk result (λ b. b ≡ false → stack.new ≡ stack.old) }
{
    if fits(Terminal::Star, kind) {
        return taken(stack, &[Symbol::Stars]);
    }
    Ok(false)
}

/// An initialiser.
pub fn rest(stack: &mut Items<Symbol>, kind: &Kind) -> Result<bool, AllocError>
    ensures moved { IfOk result (λ b. moved b stack.new ≡ rest_of kind.now (reverse stack.old)) }
    ensures same { IfOk result (λ b. b ≡ false → stack.new ≡ stack.old) }
{
    if fits(Terminal::Assign, kind) {
        return taken(stack, &[Symbol::Init]);
    }
    Ok(false)
}

/// Behind a declarator's name.
pub fn named(stack: &mut Items<Symbol>, kind: &Kind) -> Result<bool, AllocError>
    ensures moved { IfOk result (λ b. moved b stack.new ≡ named_of kind.now (reverse stack.old)) }
    ensures same { IfOk result (λ b. b ≡ false → stack.new ≡ stack.old) }
{
    if fits(Terminal::OpenSquare, kind) {
        return taken(stack, &[Symbol::Count]);
    }
    rest(stack, kind)
}

// Behind an empty size: no size is empty, and a list of numbers has to come.
fn uncounted(stack: &mut Items<Symbol>, kind: &Kind) -> Result<bool, AllocError>
    ensures { IfOk result (λ b. moved b stack.new ≡ uncounted_of kind.now (reverse stack.old)) }
{
    if fits(Terminal::CloseSquare, kind) {
        let assign = Symbol::Take(Terminal::Assign);
        let open = Symbol::Take(Terminal::OpenCurly);
        return taken(stack, &[Symbol::Sizes, assign, open, Symbol::Numbers]);
    }
    Ok(false)
}

/// Behind the first `[` of a declarator.
pub fn count(stack: &mut Items<Symbol>, kind: &Kind) -> Result<bool, AllocError>
    ensures { IfOk result (λ b. moved b stack.new ≡ count_of kind.now (reverse stack.old)) }
{
    if is_number(kind) {
        let close = Symbol::Take(Terminal::CloseSquare);
        return taken(stack, &[close, Symbol::Sizes, Symbol::Rest]);
    }
    uncounted(stack, kind)
}

/// Sizes.
pub fn sizes(stack: &mut Items<Symbol>, kind: &Kind) -> Result<bool, AllocError>
    ensures moved { IfOk result (λ b. moved b stack.new ≡ sizes_of kind.now (reverse stack.old)) }
    ensures same { IfOk result (λ b. b ≡ false → stack.new ≡ stack.old) }
{
    if fits(Terminal::OpenSquare, kind) {
        let close = Symbol::Take(Terminal::CloseSquare);
        return taken(stack, &[Symbol::Number, close, Symbol::Sizes]);
    }
    Ok(false)
}

/// Behind the `=` of an initialiser.
pub fn init(stack: &mut Items<Symbol>, kind: &Kind) -> Result<bool, AllocError>
    ensures { IfOk result (λ b. moved b stack.new ≡ init_of kind.now (reverse stack.old)) }
{
    if fits(Terminal::OpenCurly, kind) {
        return taken(stack, &[Symbol::Numbers]);
    }
    push(stack, &[Symbol::More])?;
    unary(stack, kind)
}

fn negative(stack: &mut Items<Symbol>, kind: &Kind) -> Result<bool, AllocError>
    ensures { IfOk result (λ b. moved b stack.new ≡ negative_of kind.now (reverse stack.old)) }
{
    if fits(Terminal::Minus, kind) {
        return taken(stack, &[Symbol::Number, Symbol::NumbersEnd]);
    }
    Ok(false)
}

/// Numbers.
pub fn numbers(stack: &mut Items<Symbol>, kind: &Kind) -> Result<bool, AllocError>
    ensures { IfOk result (λ b. moved b stack.new ≡ numbers_of kind.now (reverse stack.old)) }
{
    if is_number(kind) {
        return taken(stack, &[Symbol::NumbersEnd]);
    }
    negative(stack, kind)
}

/// Behind a number.
pub fn numbers_end(stack: &mut Items<Symbol>, kind: &Kind) -> Result<bool, AllocError>
    ensures { IfOk result (λ b. moved b stack.new ≡ numbers_end_of kind.now (reverse stack.old)) }
{
    if fits(Terminal::Comma, kind) {
        return taken(stack, &[Symbol::NumbersMore]);
    }
    Ok(fits(Terminal::CloseCurly, kind))
}

/// Behind a number's comma.
pub fn numbers_more(stack: &mut Items<Symbol>, kind: &Kind) -> Result<bool, AllocError>
    ensures { IfOk result (λ b. moved b stack.new ≡ numbers_more_of kind.now (reverse stack.old)) }
{
    if fits(Terminal::CloseCurly, kind) {
        return Ok(true);
    }
    numbers(stack, kind)
}

/// The members of a struct.
pub fn members(stack: &mut Items<Symbol>, kind: &Kind) -> Result<bool, AllocError>
    ensures { IfOk result (λ b. moved b stack.new ≡ members_of kind.now (reverse stack.old)) }
{
    if fits(Terminal::CloseCurly, kind) {
        return taken(stack, &[Symbol::Take(Terminal::Semicolon)]);
    }
    push(stack, &[Symbol::End(Listing::Members), Symbol::Members])?;
    push(stack, &[Symbol::Stars, Symbol::Name, Symbol::Sizes])?;
    based(stack, kind)
}

/// A parameter.
pub fn param(stack: &mut Items<Symbol>, kind: &Kind) -> Result<bool, AllocError>
    ensures { IfOk result (λ b. moved b stack.new ≡ param_of kind.now (reverse stack.old)) }
{
    push(
        stack,
        &[Symbol::Stars, Symbol::ParamName, Symbol::FirstSize],
    )?;
    based(stack, kind)
}

fn void_params(stack: &mut Items<Symbol>, kind: &Kind) -> Result<bool, AllocError>
    ensures { IfOk result (λ b. moved b stack.new ≡ void_params_of kind.now (reverse stack.old)) }
{
    if fits(Terminal::Void, kind) {
        return taken(stack, &[Symbol::Take(Terminal::CloseRound)]);
    }
    push(stack, &[Symbol::End(Listing::Params)])?;
    param(stack, kind)
}

/// Parameters.
pub fn params(stack: &mut Items<Symbol>, kind: &Kind) -> Result<bool, AllocError>
    ensures { IfOk result (λ b. moved b stack.new ≡ params_of kind.now (reverse stack.old)) }
{
    if fits(Terminal::CloseRound, kind) {
        return Ok(true);
    }
    void_params(stack, kind)
}

/// Sizes of a parameter.
pub fn first_size(stack: &mut Items<Symbol>, kind: &Kind) -> Result<bool, AllocError>
    ensures moved { IfOk result (λ b. moved b stack.new ≡ first_size_of kind.now (reverse stack.old)) }
    ensures same { IfOk result (λ b. b ≡ false → stack.new ≡ stack.old) }
{
    if fits(Terminal::OpenSquare, kind) {
        return taken(stack, &[Symbol::ParamCount]);
    }
    Ok(false)
}

fn param_uncounted(stack: &mut Items<Symbol>, kind: &Kind) -> Result<bool, AllocError>
    ensures { IfOk result (λ b. moved b stack.new ≡ param_uncounted_of kind.now (reverse stack.old)) }
{
    if fits(Terminal::CloseSquare, kind) {
        return taken(stack, &[Symbol::Sizes]);
    }
    Ok(false)
}

/// Behind the first `[` of a parameter.
pub fn param_count(stack: &mut Items<Symbol>, kind: &Kind) -> Result<bool, AllocError>
    ensures { IfOk result (λ b. moved b stack.new ≡ param_count_of kind.now (reverse stack.old)) }
{
    if is_number(kind) {
        return taken(stack, &[Symbol::Take(Terminal::CloseSquare), Symbol::Sizes]);
    }
    param_uncounted(stack, kind)
}
