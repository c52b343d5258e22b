//! Reading definitions of structs.
ghost use Rattle.std.specs.Prelude.{◌≡◌, ℕ, ◌+◌, ◌≤◌, ◌<◌, IfOk, IfSome, option_map, is_some, length, drop};
ghost use Rattle.ax_parse_grammar.specs.ReadSources.{members, struct_ahead, struct_by};
ghost use Rattle.ax_parse_expressions.specs.Answers.{Gives};
ghost use Rattle.ax_parse_statements.specs.HeadsFound.{member_lists};

use crate::lists::declarators;
use crate::parts::base;
use ax_parse_expressions::ReadFault;
use ax_parse_expressions::tokens::{extent, is_at, name_at};
use ax_parse_grammar::terminals::Terminal;
use ax_parse_grammar::tree::{Members, Name, Part};
use ax_prog::tokens::Token;
use sqlite_items::Items;
use std::alloc::{AllocError, Global};

/// The name of the struct whose definition begins at a place.
pub fn struct_at(alloc: Global, tokens: &[Token], at: usize) -> Result<Option<Name>, AllocError>
    requires { at ≤ length tokens.now }
    ensures found { IfOk result (λ o. struct_ahead (drop at tokens.now) ≡ option_map (λ x. (x, drop (at + 3) tokens.now)) o) }
    ensures within { IfOk result (λ o. IfSome o (λ x. at + 3 ≤ length tokens.now)) }
{
    if !is_at(tokens, at, Terminal::Struct) {
        return Ok(None);
    }
    match name_at(alloc, tokens, at + 1)? {
        None => Ok(None),
        Some(name) => {
            if !is_at(tokens, at + 2, Terminal::OpenCurly) {
                return Ok(None);
            }
            Ok(Some(name))
        }
    }
}

// Members of one base, and `;`.
fn members(alloc: Global, tokens: &[Token], at: usize) -> Result<(Members, usize), ReadFault>
    requires { at ≤ length tokens.now }
    ensures forward { IfOk result (λ f. (at < f.1) × (f.1 ≤ length tokens.now)) }
    ensures exact { Gives tokens.now result (λ n. members n (drop at tokens.now)) }
{
    let (base, next) = base(alloc, tokens, at)?;
    let (items, end) = declarators(alloc, tokens, next)?;
    if !is_at(tokens, end, Terminal::Semicolon) {
        return Err(ReadFault::Syntax(end));
    }
    let span = extent(tokens, at, end + 1);
    Ok((Members { span, base, items }, end + 1))
}

// The members of a struct, up to `}`.
fn member_lists(
    alloc: Global,
    tokens: &[Token],
    at: usize,
) -> Result<(Items<Members>, usize), ReadFault>
    requires { at ≤ length tokens.now }
    ensures forward { IfOk result (λ f. (at ≤ f.1) × (f.1 ≤ length tokens.now)) }
    ensures exact { Gives tokens.now result (λ n. member_lists n (drop at tokens.now)) }
{
    let mut found = Items::new(alloc);
    let mut next = at;
    while !is_at(tokens, next, Terminal::CloseCurly) {
        let (more, end) = members(alloc, tokens, next)?;
        found.push(more)?;
        next = end;
    }
    Ok((found, next))
}

/// What stands behind the `{` of the definition of a struct that began at `start`.
pub fn struct_body(
    alloc: Global,
    tokens: &[Token],
    start: usize,
    at: usize,
    name: Name,
) -> Result<(Part, usize), ReadFault>
    requires order { start < at }
    requires within { at ≤ length tokens.now }
    ensures forward { IfOk result (λ f. (at < f.1) × (f.1 ≤ length tokens.now)) }
    ensures exact { Gives tokens.now result (λ n. struct_by (member_lists n) (drop start tokens.now) (name, drop at tokens.now)) }
{
    let (found, next) = member_lists(alloc, tokens, at)?;
    if !is_at(tokens, next, Terminal::CloseCurly) {
        return Err(ReadFault::Syntax(next));
    }
    if !is_at(tokens, next + 1, Terminal::Semicolon) {
        return Err(ReadFault::Syntax(next + 1));
    }
    let end = next + 2;
    Ok((Part::Struct(extent(tokens, start, end), name, found), end))
}
