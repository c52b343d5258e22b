//! Reading parts of declarations that hold no list.
ghost use Rattle.std.specs.Prelude.{◌≡◌, ℕ, ◌+◌, ◌≤◌, ◌<◌, IfOk, IfSome, Some, option_map, length, drop};
ghost use Rattle.ax_parse_grammar.specs.Reading.{after, next};
ghost use Rattle.ax_parse_grammar.specs.ReadDeclarations.{number_of as number_of_kind, base, stars, size_by, signed};
ghost use Rattle.ax_parse_statements.specs.DeclarationsFound.{Finds};

use ax_parse_expressions::ReadFault;
use ax_parse_expressions::tokens::{extent, is_at, name_at};
use ax_parse_grammar::terminals::Terminal;
use ax_parse_grammar::tree::{Base, Signed, Size};
use ax_prog::tokens::{Kind, Token};
use std::alloc::Global;

fn number_of(kind: &Kind) -> Option<i32>
    ensures { result ≡ number_of_kind kind.now }
{
    match kind {
        Kind::Name(_) => None,
        Kind::Number(n) => Some(*n),
        Kind::Keyword(_) => None,
        Kind::Format(_) => None,
        Kind::Mark(_) => None,
    }
}

/// The number at a place.
pub fn number_at(tokens: &[Token], at: usize) -> Option<i32>
    requires { at ≤ length tokens.now }
    ensures found { next number_of_kind (drop at tokens.now) ≡ option_map (λ n. (n, drop (at + 1) tokens.now)) result }
    ensures within { IfSome result (λ n. at < length tokens.now) }
{
    if at == tokens.len() {
        return None;
    }
    number_of(&tokens[at].kind)
}

// The name behind `struct`, which stands at `at`.
fn tagged(alloc: Global, tokens: &[Token], at: usize) -> Result<(Base, usize), ReadFault>
    requires within { at < length tokens.now }
    requires tag { after Terminal.Struct (drop at tokens.now) ≡ Some (drop (at + 1) tokens.now) }
    ensures forward { IfOk result (λ f. (at < f.1) × (f.1 ≤ length tokens.now)) }
    ensures exact { Finds tokens.now result (base (drop at tokens.now)) }
{
    match name_at(alloc, tokens, at + 1)? {
        None => Err(ReadFault::Syntax(at + 1)),
        Some(name) => Ok((Base::Struct(extent(tokens, at, at + 2), name), at + 2)),
    }
}

/// `int`, or `struct` and a name.
pub fn base(alloc: Global, tokens: &[Token], at: usize) -> Result<(Base, usize), ReadFault>
    requires { at ≤ length tokens.now }
    ensures forward { IfOk result (λ f. (at < f.1) × (f.1 ≤ length tokens.now)) }
    ensures exact { Finds tokens.now result (base (drop at tokens.now)) }
{
    if is_at(tokens, at, Terminal::Struct) {
        return tagged(alloc, tokens, at);
    }
    if is_at(tokens, at, Terminal::Int) {
        return Ok((Base::Int(extent(tokens, at, at + 1)), at + 1));
    }
    Err(ReadFault::Syntax(at))
}

/// How many `*` stand from a place on, and the place behind them.
pub fn stars(tokens: &[Token], at: usize) -> (usize, usize)
    requires { at ≤ length tokens.now }
    ensures order { at ≤ result.1 }
    ensures within { result.1 ≤ length tokens.now }
    ensures exact { stars (drop at tokens.now) ≡ (result.0, drop result.1 tokens.now) }
{
    let mut next = at;
    while is_at(tokens, next, Terminal::Star) {
        next += 1;
    }
    (next - at, next)
}

/// A size, whose `[` stands at `at`; without a number where `leave` says so.
pub fn size(tokens: &[Token], at: usize, leave: bool) -> Result<(Size, usize), ReadFault>
    requires { at < length tokens.now }
    ensures forward { IfOk result (λ f. (at < f.1) × (f.1 ≤ length tokens.now)) }
    ensures exact { Finds tokens.now result (size_by leave (drop at tokens.now) (drop (at + 1) tokens.now)) }
{
    match number_at(tokens, at + 1) {
        None => {
            if !leave || !is_at(tokens, at + 1, Terminal::CloseSquare) {
                return Err(ReadFault::Syntax(at + 1));
            }
            let span = extent(tokens, at, at + 2);
            Ok((Size { span, count: None }, at + 2))
        }
        Some(n) => {
            if !is_at(tokens, at + 2, Terminal::CloseSquare) {
                return Err(ReadFault::Syntax(at + 2));
            }
            let span = extent(tokens, at, at + 3);
            Ok((
                Size {
                    span,
                    count: Some(n),
                },
                at + 3,
            ))
        }
    }
}

/// A number of a brace list.
pub fn signed(tokens: &[Token], at: usize) -> Result<(Signed, usize), ReadFault>
    requires { at ≤ length tokens.now }
    ensures forward { IfOk result (λ f. (at < f.1) × (f.1 ≤ length tokens.now)) }
    ensures exact { Finds tokens.now result (signed (drop at tokens.now)) }
{
    let negative = is_at(tokens, at, Terminal::Minus);
    let digits = if negative { at + 1 } else { at };
    match number_at(tokens, digits) {
        None => Err(ReadFault::Syntax(digits)),
        Some(value) => {
            let span = extent(tokens, at, digits + 1);
            Ok((
                Signed {
                    span,
                    negative,
                    value,
                },
                digits + 1,
            ))
        }
    }
}
