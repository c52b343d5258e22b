//! How a source goes on by one token.
ghost use Rattle.std.specs.Prelude.{◌≡◌, true, false, reverse, IfOk};
ghost use Rattle.ax_parse_places.specs.Turns.{moved, turn as turn_of, may_skip as may_skip_of, step as step_of};

use crate::declarations::{
    count, decl, end, first_size, init, members, named, numbers, numbers_end, numbers_more, param,
    param_count, params, rest, sizes, stars,
};
use crate::expressions::{args, assigned, more, plain, posts, simple, unary};
use crate::kinds::{is_format, is_name, is_number};
use crate::sources::{body, parts, top_named, top_struct};
use crate::statements::{items, opening, otherwise, step_part, stmt, value};
use crate::symbols::Symbol;
use ax_parse_grammar::terminals::fits;
use ax_prog::tokens::Kind;
use sqlite_items::Items;
use std::alloc::AllocError;

// Whether the part may be left out.
fn may_skip(symbol: Symbol) -> bool
    ensures { result ≡ may_skip_of symbol }
{
    matches!(
        symbol,
        Symbol::Posts
            | Symbol::More
            | Symbol::Called
            | Symbol::Stars
            | Symbol::Named
            | Symbol::Sizes
            | Symbol::Rest
            | Symbol::Else
            | Symbol::ParamName
            | Symbol::FirstSize
    )
}

// Whether the token can be the first of the part, and then what is still to come on the stack.
fn turn(stack: &mut Items<Symbol>, symbol: Symbol, kind: &Kind) -> Result<bool, AllocError>
    ensures moved { IfOk result (λ b. moved b stack.new ≡ turn_of symbol kind.now (reverse stack.old)) }
    ensures same { IfOk result (λ b. may_skip_of symbol ≡ true → b ≡ false → stack.new ≡ stack.old) }
{
    match symbol {
        Symbol::Take(what) => Ok(fits(what, kind)),
        Symbol::Name => Ok(is_name(kind)),
        Symbol::Number => Ok(is_number(kind)),
        Symbol::Format => Ok(is_format(kind)),
        Symbol::Unary => unary(stack, kind),
        Symbol::Posts => posts(stack, kind),
        Symbol::More => more(stack, kind),
        Symbol::Args => args(stack, kind),
        Symbol::End(which) => end(stack, which, kind),
        Symbol::Simple => simple(stack, kind),
        Symbol::Plain => plain(stack, kind),
        Symbol::Called => plain(stack, kind),
        Symbol::Assigned => assigned(stack, kind),
        Symbol::Decl => decl(stack, kind),
        Symbol::Stars => stars(stack, kind),
        Symbol::Named => named(stack, kind),
        Symbol::Count => count(stack, kind),
        Symbol::Sizes => sizes(stack, kind),
        Symbol::Rest => rest(stack, kind),
        Symbol::Init => init(stack, kind),
        Symbol::Numbers => numbers(stack, kind),
        Symbol::NumbersEnd => numbers_end(stack, kind),
        Symbol::NumbersMore => numbers_more(stack, kind),
        Symbol::Stmt => stmt(stack, kind),
        Symbol::Items => items(stack, kind),
        Symbol::Else => otherwise(stack, kind),
        Symbol::Value => value(stack, kind),
        Symbol::Opening => opening(stack, kind),
        Symbol::Step => step_part(stack, kind),
        Symbol::Parts => parts(stack, kind),
        Symbol::TopNamed => top_named(stack, kind),
        Symbol::TopStruct => top_struct(stack, kind),
        Symbol::Members => members(stack, kind),
        Symbol::Params => params(stack, kind),
        Symbol::Param => param(stack, kind),
        Symbol::ParamName => Ok(is_name(kind)),
        Symbol::FirstSize => first_size(stack, kind),
        Symbol::ParamCount => param_count(stack, kind),
        Symbol::Body => body(stack, kind),
    }
}

/// Whether the token can come next, and then what is still to come on the stack.
pub fn step(stack: &mut Items<Symbol>, kind: &Kind) -> Result<bool, AllocError>
    ensures { IfOk result (λ b. moved b stack.new ≡ step_of (reverse stack.old) kind.now) }
{
    while let Some(symbol) = stack.pop() {
        if turn(stack, symbol, kind)? {
            return Ok(true);
        }
        if !may_skip(symbol) {
            return Ok(false);
        }
    }
    Ok(false)
}
