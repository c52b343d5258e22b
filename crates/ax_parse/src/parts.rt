//! Reading what stands at the top of a source.
ghost use Rattle.std.specs.Prelude.{◌≡◌, ℕ, ◌+◌, ◌≤◌, ◌<◌, IfOk, length, drop};
ghost use Rattle.ax_parse_grammar.specs.ReadDeclarations.{stars};
ghost use Rattle.ax_parse_grammar.specs.ReadSources.{names_function as names_function_by, head_ahead, body_by, other_by, top};
ghost use Rattle.ax_parse_expressions.specs.Answers.{Gives};
ghost use Rattle.ax_parse.specs.Found.{function, declaration};

use ax_parse_expressions::ReadFault;
use ax_parse_expressions::tokens::{extent, is_at, name_at};
use ax_parse_grammar::terminals::Terminal;
use ax_parse_grammar::tree::{Head, Part};
use ax_parse_statements::parts::{base, stars};
use ax_parse_statements::{decl, head, items, struct_at, struct_body};
use ax_prog::tokens::Token;
use std::alloc::{AllocError, Global};

// Whether stars, a name and `(` stand from a place on.
fn names_function(alloc: Global, tokens: &[Token], at: usize) -> Result<bool, AllocError>
    requires { at ≤ length tokens.now }
    ensures { IfOk result (λ b. b ≡ names_function_by (stars (drop at tokens.now))) }
{
    let (_, behind) = stars(tokens, at);
    match name_at(alloc, tokens, behind)? {
        None => Ok(false),
        Some(_) => Ok(is_at(tokens, behind + 1, Terminal::OpenRound)),
    }
}

// Whether the head of a function begins at a place, and no declaration.
fn head_at(alloc: Global, tokens: &[Token], at: usize) -> Result<bool, AllocError>
    requires { at ≤ length tokens.now }
    ensures { IfOk result (λ b. b ≡ head_ahead (drop at tokens.now)) }
{
    if is_at(tokens, at, Terminal::Void) {
        return Ok(true);
    }
    match base(alloc, tokens, at) {
        Ok((_, next)) => names_function(alloc, tokens, next),
        Err(ReadFault::Syntax(_)) => Ok(false),
        Err(ReadFault::Memory) => Err(AllocError),
    }
}

// What stands behind the head of a function that began at `start`.
fn body(
    alloc: Global,
    tokens: &[Token],
    start: usize,
    at: usize,
    head: Head,
) -> Result<(Part, usize), ReadFault>
    requires order { start < at }
    requires within { at ≤ length tokens.now }
    ensures forward { IfOk result (λ f. (at < f.1) × (f.1 ≤ length tokens.now)) }
    ensures exact { Gives tokens.now result (λ n. body_by n (drop start tokens.now) (head, drop at tokens.now)) }
{
    if is_at(tokens, at, Terminal::Semicolon) {
        let span = extent(tokens, start, at + 1);
        return Ok((Part::Prototype(span, head), at + 1));
    }
    if !is_at(tokens, at, Terminal::OpenCurly) {
        return Err(ReadFault::Syntax(at));
    }
    let (stmts, end) = items(alloc, tokens, at + 1)?;
    Ok((Part::Function(extent(tokens, start, end), head, stmts), end))
}

// A function or a prototype.
fn function(alloc: Global, tokens: &[Token], at: usize) -> Result<(Part, usize), ReadFault>
    requires { at ≤ length tokens.now }
    ensures forward { IfOk result (λ f. (at < f.1) × (f.1 ≤ length tokens.now)) }
    ensures exact { Gives tokens.now result (λ n. function n (drop at tokens.now)) }
{
    let (found, next) = head(alloc, tokens, at)?;
    body(alloc, tokens, at, next, found)
}

fn declaration(alloc: Global, tokens: &[Token], at: usize) -> Result<(Part, usize), ReadFault>
    requires { at ≤ length tokens.now }
    ensures forward { IfOk result (λ f. (at < f.1) × (f.1 ≤ length tokens.now)) }
    ensures exact { Gives tokens.now result (λ n. declaration n (drop at tokens.now)) }
{
    let (found, end) = decl(alloc, tokens, at)?;
    Ok((Part::Decl(found), end))
}

// What is no definition of a struct.
fn other(alloc: Global, tokens: &[Token], at: usize) -> Result<(Part, usize), ReadFault>
    requires { at ≤ length tokens.now }
    ensures forward { IfOk result (λ f. (at < f.1) × (f.1 ≤ length tokens.now)) }
    ensures exact { Gives tokens.now result (λ n. other_by n (head_ahead (drop at tokens.now)) (drop at tokens.now)) }
{
    if head_at(alloc, tokens, at)? {
        return function(alloc, tokens, at);
    }
    declaration(alloc, tokens, at)
}

/// What stands at the top of a source: the definition of a struct, a declaration, a prototype or a function.
pub fn part(alloc: Global, tokens: &[Token], at: usize) -> Result<(Part, usize), ReadFault>
    requires { at ≤ length tokens.now }
    ensures forward { IfOk result (λ f. (at < f.1) × (f.1 ≤ length tokens.now)) }
    ensures exact { Gives tokens.now result (λ n. top n (drop at tokens.now)) }
{
    match struct_at(alloc, tokens, at)? {
        None => other(alloc, tokens, at),
        Some(name) => struct_body(alloc, tokens, at, at + 3, name),
    }
}
