//! How the top of a source goes on.
ghost use Rattle.std.specs.Prelude.{◌≡◌, reverse, IfOk};
ghost use Rattle.ax_parse_places.specs.Turns.{moved, void_part as void_part_of, struct_part as struct_part_of, parts as parts_of, top_unsized as top_unsized_of, top_plain as top_plain_of, top_named as top_named_of, top_name as top_name_of, top_first as top_first_of, top_struct as top_struct_of, opened as opened_of, body as body_of};

use crate::declarations::end;
use crate::kinds::is_name;
use crate::stack::{push, taken};
use crate::symbols::{Listing, Symbol};
use ax_parse_grammar::terminals::{Terminal, fits};
use ax_prog::tokens::Kind;
use sqlite_items::Items;
use std::alloc::AllocError;

fn void_part(stack: &mut Items<Symbol>, kind: &Kind) -> Result<bool, AllocError>
    ensures { IfOk result (λ b. moved b stack.new ≡ void_part_of kind.now (reverse stack.old)) }
{
    if fits(Terminal::Void, kind) {
        push(stack, &[Symbol::Params, Symbol::Body, Symbol::Parts])?;
        let open = Symbol::Take(Terminal::OpenRound);
        return taken(stack, &[Symbol::Stars, Symbol::Name, open]);
    }
    Ok(false)
}

fn struct_part(stack: &mut Items<Symbol>, kind: &Kind) -> Result<bool, AllocError>
    ensures { IfOk result (λ b. moved b stack.new ≡ struct_part_of kind.now (reverse stack.old)) }
{
    if fits(Terminal::Struct, kind) {
        return taken(stack, &[Symbol::Name, Symbol::TopStruct, Symbol::Parts]);
    }
    void_part(stack, kind)
}

/// What stands at the top of a source.
pub fn parts(stack: &mut Items<Symbol>, kind: &Kind) -> Result<bool, AllocError>
    ensures { IfOk result (λ b. moved b stack.new ≡ parts_of kind.now (reverse stack.old)) }
{
    if fits(Terminal::Int, kind) {
        push(stack, &[Symbol::TopNamed, Symbol::Parts])?;
        return taken(stack, &[Symbol::Stars, Symbol::Name]);
    }
    struct_part(stack, kind)
}

fn top_unsized(stack: &mut Items<Symbol>, kind: &Kind) -> Result<bool, AllocError>
    ensures { IfOk result (λ b. moved b stack.new ≡ top_unsized_of kind.now (reverse stack.old)) }
{
    if fits(Terminal::Assign, kind) {
        return taken(stack, &[Symbol::Init, Symbol::End(Listing::Decl)]);
    }
    end(stack, Listing::Decl, kind)
}

fn top_plain(stack: &mut Items<Symbol>, kind: &Kind) -> Result<bool, AllocError>
    ensures { IfOk result (λ b. moved b stack.new ≡ top_plain_of kind.now (reverse stack.old)) }
{
    if fits(Terminal::OpenSquare, kind) {
        return taken(stack, &[Symbol::Count, Symbol::End(Listing::Decl)]);
    }
    top_unsized(stack, kind)
}

/// Behind the name at the top of a source.
pub fn top_named(stack: &mut Items<Symbol>, kind: &Kind) -> Result<bool, AllocError>
    ensures { IfOk result (λ b. moved b stack.new ≡ top_named_of kind.now (reverse stack.old)) }
{
    if fits(Terminal::OpenRound, kind) {
        return taken(stack, &[Symbol::Params, Symbol::Body]);
    }
    top_plain(stack, kind)
}

fn top_name(stack: &mut Items<Symbol>, kind: &Kind) -> Result<bool, AllocError>
    ensures { IfOk result (λ b. moved b stack.new ≡ top_name_of kind.now (reverse stack.old)) }
{
    if is_name(kind) {
        return taken(stack, &[Symbol::TopNamed]);
    }
    Ok(false)
}

fn top_first(stack: &mut Items<Symbol>, kind: &Kind) -> Result<bool, AllocError>
    ensures { IfOk result (λ b. moved b stack.new ≡ top_first_of kind.now (reverse stack.old)) }
{
    if fits(Terminal::Star, kind) {
        return taken(stack, &[Symbol::Stars, Symbol::Name, Symbol::TopNamed]);
    }
    top_name(stack, kind)
}

/// Behind `struct` and a tag at the top of a source.
pub fn top_struct(stack: &mut Items<Symbol>, kind: &Kind) -> Result<bool, AllocError>
    ensures { IfOk result (λ b. moved b stack.new ≡ top_struct_of kind.now (reverse stack.old)) }
{
    if fits(Terminal::OpenCurly, kind) {
        return taken(stack, &[Symbol::Members]);
    }
    top_first(stack, kind)
}

/// The body of a function, or `;`.
pub fn body(stack: &mut Items<Symbol>, kind: &Kind) -> Result<bool, AllocError>
    ensures { IfOk result (λ b. moved b stack.new ≡ body_of kind.now (reverse stack.old)) }
{
    if fits(Terminal::Semicolon, kind) {
        return Ok(true);
    }
    opened(stack, kind)
}

fn opened(stack: &mut Items<Symbol>, kind: &Kind) -> Result<bool, AllocError>
    ensures { IfOk result (λ b. moved b stack.new ≡ opened_of kind.now (reverse stack.old)) }
{
    if fits(Terminal::OpenCurly, kind) {
        return taken(stack, &[Symbol::Items]);
    }
    Ok(false)
}
