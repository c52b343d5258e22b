//! Reading lists of declarations.
ghost use Rattle.std.specs.Prelude.{◌≡◌, ℕ, ◌+◌, ◌≤◌, ◌<◌, IfOk, option_map, true, false, Some, None, length, drop};
ghost use Rattle.ax_parse_grammar.specs.Reading.{after};
ghost use Rattle.ax_parse_grammar.specs.ReadDeclarations.{sizes, numbers, declarator, is_sized as is_sized_list};
ghost use Rattle.ax_parse_expressions.specs.Answers.{Gives};
ghost use Rattle.ax_parse_statements.specs.DeclarationsFound.{Finds, declarators, another, list_end};

use crate::parts::{signed, size, stars};
use ax_parse_expressions::ReadFault;
use ax_parse_expressions::tokens::{extent, is_at, name_at};
use ax_parse_grammar::terminals::Terminal;
use ax_parse_grammar::tree::{Declarator, Signed, Size};
use ax_prog::tokens::Token;
use sqlite_items::Items;
use std::alloc::Global;

/// Sizes; the first may be empty where `leave` says so.
pub fn sizes(
    alloc: Global,
    tokens: &[Token],
    at: usize,
    leave: bool,
) -> Result<(Items<Size>, usize), ReadFault>
    requires { at ≤ length tokens.now }
    ensures forward { IfOk result (λ f. (at ≤ f.1) × (f.1 ≤ length tokens.now)) }
    ensures exact { Gives tokens.now result (λ n. sizes n leave (drop at tokens.now)) }
{
    let mut found = Items::new(alloc);
    let mut next = at;
    let mut may = leave;
    while is_at(tokens, next, Terminal::OpenSquare) {
        let (one, end) = size(tokens, next, may)?;
        found.push(one)?;
        next = end;
        may = false;
    }
    Ok((found, next))
}

/// Whether no size is empty, where the first alone may be.
pub fn is_sized(sizes: &[Size]) -> bool
    ensures { result ≡ is_sized_list sizes.now }
{
    match sizes {
        [] => true,
        [first, ..] => first.count.is_some(),
    }
}

/// A declarator; its first size may be empty where `leave` says so.
pub fn declarator(
    alloc: Global,
    tokens: &[Token],
    at: usize,
    leave: bool,
) -> Result<(Declarator, usize), ReadFault>
    requires { at ≤ length tokens.now }
    ensures forward { IfOk result (λ f. (at < f.1) × (f.1 ≤ length tokens.now)) }
    ensures exact { Gives tokens.now result (λ n. declarator leave n (drop at tokens.now)) }
{
    let (stars, behind) = stars(tokens, at);
    match name_at(alloc, tokens, behind)? {
        None => Err(ReadFault::Syntax(behind)),
        Some(name) => {
            let (sizes, end) = sizes(alloc, tokens, behind + 1, leave)?;
            let span = extent(tokens, at, end);
            Ok((
                Declarator {
                    span,
                    stars,
                    name,
                    sizes,
                },
                end,
            ))
        }
    }
}

/// Declarators of members, with commas between them.
pub fn declarators(
    alloc: Global,
    tokens: &[Token],
    at: usize,
) -> Result<(Items<Declarator>, usize), ReadFault>
    requires { at ≤ length tokens.now }
    ensures forward { IfOk result (λ f. (at < f.1) × (f.1 ≤ length tokens.now)) }
    ensures exact { Gives tokens.now result (λ n. declarators n (drop at tokens.now)) }
{
    let mut found = Items::new(alloc);
    let (first, mut next) = declarator(alloc, tokens, at, false)?;
    found.push(first)?;
    while is_at(tokens, next, Terminal::Comma) {
        let (another, end) = declarator(alloc, tokens, next + 1, false)?;
        found.push(another)?;
        next = end;
    }
    Ok((found, next))
}

// Whether another number of a brace list follows: a comma, and no `}` behind it.
fn goes_on(tokens: &[Token], at: usize) -> bool
    requires { at ≤ length tokens.now }
    ensures value { result ≡ another (drop at tokens.now) }
    ensures within { result ≡ true → at < length tokens.now }
    ensures comma { result ≡ true → after Terminal.Comma (drop at tokens.now) ≡ Some (drop (at + 1) tokens.now) }
{
    is_at(tokens, at, Terminal::Comma) && !is_at(tokens, at + 1, Terminal::CloseCurly)
}

// The end of a brace list: `}`, or a comma and `}`.
fn ended(
    tokens: &[Token],
    at: usize,
    found: Items<Signed>,
) -> Result<(Items<Signed>, usize), ReadFault>
    requires { at ≤ length tokens.now }
    ensures forward { IfOk result (λ f. (at < f.1) × (f.1 ≤ length tokens.now)) }
    ensures exact { Finds tokens.now result (option_map (λ rest. (found, rest)) (list_end (drop at tokens.now))) }
{
    if is_at(tokens, at, Terminal::Comma) {
        if !is_at(tokens, at + 1, Terminal::CloseCurly) {
            return Err(ReadFault::Syntax(at + 1));
        }
        return Ok((found, at + 2));
    }
    if !is_at(tokens, at, Terminal::CloseCurly) {
        return Err(ReadFault::Syntax(at));
    }
    Ok((found, at + 1))
}

/// The numbers of a brace list, and `}`.
pub fn numbers(
    alloc: Global,
    tokens: &[Token],
    at: usize,
) -> Result<(Items<Signed>, usize), ReadFault>
    requires { at ≤ length tokens.now }
    ensures forward { IfOk result (λ f. (at < f.1) × (f.1 ≤ length tokens.now)) }
    ensures exact { Gives tokens.now result (λ n. numbers n (drop at tokens.now)) }
{
    let mut found = Items::new(alloc);
    let (first, mut next) = signed(tokens, at)?;
    found.push(first)?;
    while goes_on(tokens, next) {
        let (more, end) = signed(tokens, next + 1)?;
        found.push(more)?;
        next = end;
    }
    ended(tokens, next, found)
}
