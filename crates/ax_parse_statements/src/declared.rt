//! Reading declarations.
ghost use Rattle.std.specs.Prelude.{◌≡◌, ℕ, ◌+◌, ◌≤◌, ◌<◌, IfOk, Some, length, drop};
ghost use Rattle.ax_parse_grammar.specs.Reading.{after};
ghost use Rattle.ax_parse_grammar.specs.ReadExpressions.{expr};
ghost use Rattle.ax_parse_grammar.specs.ReadDeclarations.{list_by, numbers, declared, decl};
ghost use Rattle.ax_parse_expressions.specs.Answers.{Gives};
ghost use Rattle.ax_parse_statements.specs.DeclarationsFound.{Finds, plain_by, initialised_by, declared_names};

use crate::lists::{declarator, is_sized, numbers};
use crate::parts::base;
use ax_parse_expressions::tokens::{extent, is_at};
use ax_parse_expressions::{ReadFault, whole};
use ax_parse_grammar::terminals::Terminal;
use ax_parse_grammar::tree::{Decl, Declarator, Declared, Initialiser};
use ax_prog::tokens::Token;
use sqlite_items::Items;
use std::alloc::Global;

// A declarator that began at `start`, without initialiser.
fn plain(
    tokens: &[Token],
    start: usize,
    at: usize,
    declarator: Declarator,
) -> Result<(Declared, usize), ReadFault>
    requires order { start < at }
    requires within { at ≤ length tokens.now }
    ensures forward { IfOk result (λ f. f.1 ≡ at) }
    ensures exact { Finds tokens.now result (plain_by (drop start tokens.now) declarator (drop at tokens.now)) }
{
    if !is_sized(declarator.sizes.as_slice()) {
        return Err(ReadFault::Syntax(at));
    }
    Ok((
        Declared {
            span: extent(tokens, start, at),
            declarator,
            initialiser: Initialiser::Nothing,
        },
        at,
    ))
}

// The brace list, whose `{` stands at `at`, of a declarator that began at `start`.
fn listed(
    alloc: Global,
    tokens: &[Token],
    start: usize,
    at: usize,
    declarator: Declarator,
) -> Result<(Declared, usize), ReadFault>
    requires order { start < at }
    requires within { at < length tokens.now }
    ensures forward { IfOk result (λ f. (at < f.1) × (f.1 ≤ length tokens.now)) }
    ensures exact { Gives tokens.now result (λ n. list_by (numbers n) (drop start tokens.now) declarator (drop at tokens.now) (drop (at + 1) tokens.now)) }
{
    let (found, end) = numbers(alloc, tokens, at + 1)?;
    let initialiser = Initialiser::List(extent(tokens, at, end), found);
    Ok((
        Declared {
            span: extent(tokens, start, end),
            declarator,
            initialiser,
        },
        end,
    ))
}

// What stands behind the `=` of a declarator that began at `start`.
fn initialised(
    alloc: Global,
    tokens: &[Token],
    start: usize,
    at: usize,
    declarator: Declarator,
) -> Result<(Declared, usize), ReadFault>
    requires order { start < at }
    requires within { at ≤ length tokens.now }
    ensures forward { IfOk result (λ f. (at < f.1) × (f.1 ≤ length tokens.now)) }
    ensures exact { Gives tokens.now result (λ n. initialised_by (expr n) (numbers n) (drop start tokens.now) declarator (drop at tokens.now)) }
{
    if is_at(tokens, at, Terminal::OpenCurly) {
        return listed(alloc, tokens, start, at, declarator);
    }
    if !is_sized(declarator.sizes.as_slice()) {
        return Err(ReadFault::Syntax(at));
    }
    let (value, end) = whole(alloc, tokens, at)?;
    Ok((
        Declared {
            span: extent(tokens, start, end),
            declarator,
            initialiser: Initialiser::Value(value),
        },
        end,
    ))
}

// A declarator with its initialiser.
fn declared(alloc: Global, tokens: &[Token], at: usize) -> Result<(Declared, usize), ReadFault>
    requires { at ≤ length tokens.now }
    ensures forward { IfOk result (λ f. (at < f.1) × (f.1 ≤ length tokens.now)) }
    ensures exact { Gives tokens.now result (λ n. declared n (drop at tokens.now)) }
{
    let (name, next) = declarator(alloc, tokens, at, true)?;
    if is_at(tokens, next, Terminal::Assign) {
        return initialised(alloc, tokens, at, next + 1, name);
    }
    plain(tokens, at, next, name)
}

// Declarators with their initialisers, with commas between them.
fn declared_names(
    alloc: Global,
    tokens: &[Token],
    at: usize,
) -> Result<(Items<Declared>, usize), ReadFault>
    requires { at ≤ length tokens.now }
    ensures forward { IfOk result (λ f. (at < f.1) × (f.1 ≤ length tokens.now)) }
    ensures exact { Gives tokens.now result (λ n. declared_names n (drop at tokens.now)) }
{
    let mut found = Items::new(alloc);
    let (first, mut next) = declared(alloc, tokens, at)?;
    found.push(first)?;
    while is_at(tokens, next, Terminal::Comma) {
        let (another, end) = declared(alloc, tokens, next + 1)?;
        found.push(another)?;
        next = end;
    }
    Ok((found, next))
}

/// A declaration.
pub fn decl(alloc: Global, tokens: &[Token], at: usize) -> Result<(Decl, usize), ReadFault>
    requires { at ≤ length tokens.now }
    ensures forward { IfOk result (λ f. (at < f.1) × (f.1 ≤ length tokens.now)) }
    ensures exact { Gives tokens.now result (λ n. decl n (drop at tokens.now)) }
{
    let (base, next) = base(alloc, tokens, at)?;
    let (items, end) = declared_names(alloc, tokens, next)?;
    if !is_at(tokens, end, Terminal::Semicolon) {
        return Err(ReadFault::Syntax(end));
    }
    let span = extent(tokens, at, end + 1);
    Ok((Decl { span, base, items }, end + 1))
}
