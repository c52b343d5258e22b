//! Reading `printf`.
ghost use Rattle.std.specs.Prelude.{◌≡◌, ℕ, ◌+◌, ◌≤◌, ◌<◌, IfOk, IfSome, option_map, length, drop};
ghost use Rattle.ax_parse_grammar.specs.Reading.{next};
ghost use Rattle.ax_parse_grammar.specs.ReadExpressions.{expr};
ghost use Rattle.ax_parse_grammar.specs.ReadStatements.{format_of as format_of_kind, stmt_by, stmt, items};
ghost use Rattle.ax_parse_expressions.specs.Answers.{Gives};
ghost use Rattle.ax_parse_statements.specs.DeclarationsFound.{Finds};
ghost use Rattle.ax_parse_statements.specs.ForsFound.{format_by, printed_by};

use crate::terminals::passes;
use ax_parse_expressions::tokens::{extent, is_at};
use ax_parse_expressions::{ReadFault, whole};
use ax_parse_grammar::starts::Start;
use ax_parse_grammar::terminals::Terminal;
use ax_parse_grammar::tree::Stmt;
use ax_prog::tokens::{Kind, Token};
use std::alloc::Global;

fn format_of(kind: &Kind) -> Option<u8>
    ensures { result ≡ format_of_kind kind.now }
{
    match kind {
        Kind::Name(_) => None,
        Kind::Number(_) => None,
        Kind::Keyword(_) => None,
        Kind::Format(n) => Some(*n),
        Kind::Mark(_) => None,
    }
}

// The format at a place.
fn format_at(tokens: &[Token], at: usize) -> Option<u8>
    requires { at ≤ length tokens.now }
    ensures found { next format_of_kind (drop at tokens.now) ≡ option_map (λ n. (n, drop (at + 1) tokens.now)) result }
    ensures within { IfSome result (λ n. at < length tokens.now) }
{
    if at == tokens.len() {
        return None;
    }
    format_of(&tokens[at].kind)
}

// `(`, a format and a comma.
fn format(tokens: &[Token], at: usize) -> Result<(u8, usize), ReadFault>
    requires { at ≤ length tokens.now }
    ensures forward { IfOk result (λ f. (at < f.1) × (f.1 ≤ length tokens.now)) }
    ensures exact { Finds tokens.now result (format_by (drop at tokens.now)) }
{
    if !is_at(tokens, at, Terminal::OpenRound) {
        return Err(ReadFault::Syntax(at));
    }
    match format_at(tokens, at + 1) {
        None => Err(ReadFault::Syntax(at + 1)),
        Some(format) => {
            if !is_at(tokens, at + 2, Terminal::Comma) {
                return Err(ReadFault::Syntax(at + 2));
            }
            Ok((format, at + 3))
        }
    }
}

// The value behind the format, `)` and `;`, of a `printf` that began at `start`.
fn printed(
    alloc: Global,
    tokens: &[Token],
    start: usize,
    at: usize,
    format: u8,
) -> Result<(Stmt, usize), ReadFault>
    requires order { start < at }
    requires within { at ≤ length tokens.now }
    ensures forward { IfOk result (λ f. (at < f.1) × (f.1 ≤ length tokens.now)) }
    ensures exact { Gives tokens.now result (λ n. printed_by (expr n) (drop start tokens.now) format (drop at tokens.now)) }
{
    let (value, next) = whole(alloc, tokens, at)?;
    let end = passes(tokens, next, &[Terminal::CloseRound, Terminal::Semicolon])?;
    Ok((Stmt::Print(extent(tokens, start, end), format, value), end))
}

/// A `printf`, which stands at `at`.
pub fn print_call(alloc: Global, tokens: &[Token], at: usize) -> Result<(Stmt, usize), ReadFault>
    requires { at < length tokens.now }
    ensures forward { IfOk result (λ f. (at < f.1) × (f.1 ≤ length tokens.now)) }
    ensures exact { Gives tokens.now result (λ n. stmt_by n (stmt n) (items n) (drop at tokens.now) (drop (at + 1) tokens.now) Start.Print) }
{
    let (format, next) = format(tokens, at + 1)?;
    printed(alloc, tokens, at, next, format)
}
