//! Reading heads of functions.
ghost use Rattle.std.specs.Prelude.{◌≡◌, ℕ, ◌+◌, ◌≤◌, ◌<◌, IfOk, true, length, drop};
ghost use Rattle.ax_parse_grammar.specs.ReadDeclarations.{sizes};
ghost use Rattle.ax_parse_grammar.specs.ReadSources.{param, params, returned, head};
ghost use Rattle.ax_parse_expressions.specs.Answers.{Gives};
ghost use Rattle.ax_parse_statements.specs.DeclarationsFound.{Finds};
ghost use Rattle.ax_parse_statements.specs.HeadsFound.{listed_params, sized_by, void_by};

use crate::lists::sizes;
use crate::parts::{base, stars};
use ax_parse_expressions::ReadFault;
use ax_parse_expressions::tokens::{extent, is_at, name_at};
use ax_parse_grammar::terminals::Terminal;
use ax_parse_grammar::tree::{Base, Head, Name, Param, Returns};
use ax_prog::tokens::Token;
use sqlite_items::Items;
use std::alloc::Global;

// The sizes of a parameter that began at `start`.
fn sized(
    alloc: Global,
    tokens: &[Token],
    start: usize,
    at: usize,
    base: Base,
    stars: usize,
    name: Option<Name>,
) -> Result<(Param, usize), ReadFault>
    requires order { start < at }
    requires within { at ≤ length tokens.now }
    ensures forward { IfOk result (λ f. (at ≤ f.1) × (f.1 ≤ length tokens.now)) }
    ensures exact { Gives tokens.now result (λ n. sized_by (sizes n true) (drop start tokens.now) base stars name (drop at tokens.now)) }
{
    let (found, end) = sizes(alloc, tokens, at, true)?;
    Ok((
        Param {
            span: extent(tokens, start, end),
            base,
            stars,
            name,
            sizes: found,
        },
        end,
    ))
}

// A parameter.
fn param(alloc: Global, tokens: &[Token], at: usize) -> Result<(Param, usize), ReadFault>
    requires { at ≤ length tokens.now }
    ensures forward { IfOk result (λ f. (at < f.1) × (f.1 ≤ length tokens.now)) }
    ensures exact { Gives tokens.now result (λ n. param n (drop at tokens.now)) }
{
    let (found, next) = base(alloc, tokens, at)?;
    let (count, behind) = stars(tokens, next);
    match name_at(alloc, tokens, behind)? {
        None => sized(alloc, tokens, at, behind, found, count, None),
        Some(name) => sized(alloc, tokens, at, behind + 1, found, count, Some(name)),
    }
}

// Parameters with commas between them.
fn listed_params(
    alloc: Global,
    tokens: &[Token],
    at: usize,
) -> Result<(Items<Param>, usize), ReadFault>
    requires { at ≤ length tokens.now }
    ensures forward { IfOk result (λ f. (at < f.1) × (f.1 ≤ length tokens.now)) }
    ensures exact { Gives tokens.now result (λ n. listed_params n (drop at tokens.now)) }
{
    let mut found = Items::new(alloc);
    let (first, mut next) = param(alloc, tokens, at)?;
    found.push(first)?;
    while is_at(tokens, next, Terminal::Comma) {
        let (another, end) = param(alloc, tokens, next + 1)?;
        found.push(another)?;
        next = end;
    }
    Ok((found, next))
}

// `)` behind `void`.
fn no_params(alloc: Global, tokens: &[Token], at: usize) -> Result<(Items<Param>, usize), ReadFault>
    requires { at ≤ length tokens.now }
    ensures forward { IfOk result (λ f. (at < f.1) × (f.1 ≤ length tokens.now)) }
    ensures exact { Finds tokens.now result (void_by (drop at tokens.now)) }
{
    if !is_at(tokens, at, Terminal::CloseRound) {
        return Err(ReadFault::Syntax(at));
    }
    Ok((Items::new(alloc), at + 1))
}

// Parameters and `)`.
fn params(alloc: Global, tokens: &[Token], at: usize) -> Result<(Items<Param>, usize), ReadFault>
    requires { at ≤ length tokens.now }
    ensures forward { IfOk result (λ f. (at < f.1) × (f.1 ≤ length tokens.now)) }
    ensures exact { Gives tokens.now result (λ n. params n (drop at tokens.now)) }
{
    if is_at(tokens, at, Terminal::CloseRound) {
        return Ok((Items::new(alloc), at + 1));
    }
    if is_at(tokens, at, Terminal::Void) {
        return no_params(alloc, tokens, at + 1);
    }
    let (found, next) = listed_params(alloc, tokens, at)?;
    if !is_at(tokens, next, Terminal::CloseRound) {
        return Err(ReadFault::Syntax(next));
    }
    Ok((found, next + 1))
}

// What a function returns, stars aside.
fn returned(alloc: Global, tokens: &[Token], at: usize) -> Result<(Returns, usize), ReadFault>
    requires { at ≤ length tokens.now }
    ensures forward { IfOk result (λ f. (at < f.1) × (f.1 ≤ length tokens.now)) }
    ensures exact { Finds tokens.now result (returned (drop at tokens.now)) }
{
    if is_at(tokens, at, Terminal::Void) {
        return Ok((Returns::Void(extent(tokens, at, at + 1)), at + 1));
    }
    let (found, next) = base(alloc, tokens, at)?;
    Ok((Returns::Of(found), next))
}

/// The head of a function.
pub fn head(alloc: Global, tokens: &[Token], at: usize) -> Result<(Head, usize), ReadFault>
    requires { at ≤ length tokens.now }
    ensures forward { IfOk result (λ f. (at < f.1) × (f.1 ≤ length tokens.now)) }
    ensures exact { Gives tokens.now result (λ n. head n (drop at tokens.now)) }
{
    let (returns, next) = returned(alloc, tokens, at)?;
    let (stars, behind) = stars(tokens, next);
    match name_at(alloc, tokens, behind)? {
        None => Err(ReadFault::Syntax(behind)),
        Some(name) => {
            if !is_at(tokens, behind + 1, Terminal::OpenRound) {
                return Err(ReadFault::Syntax(behind + 1));
            }
            let (params, end) = params(alloc, tokens, behind + 2)?;
            let span = extent(tokens, at, end);
            Ok((
                Head {
                    span,
                    returns,
                    stars,
                    name,
                    params,
                },
                end,
            ))
        }
    }
}
