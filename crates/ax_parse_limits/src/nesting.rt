//! How deeply tokens nest.
ghost use Rattle.std.specs.Prelude.{◌≡◌, ◌+◌, ◌-◌, ◌≤◌, ◌<◌, IfOk, length, drop, sum, if◌then◌else◌};
ghost use Rattle.ax_parse_limits.specs.Nesting.{step, measure, first_too_deep, deep_from, next_is_else as next_is_else_of, is_value as is_value_of, class_of as class_of_kind, file};

use ax_prog::tokens::{Keyword, Kind, Mark, Token};
use sqlite_items::Items;
use std::alloc::{AllocError, Global};

/// What a token does to the measure of nesting.
#[derive(Clone, Copy, PartialEq, Eq, Debug)]
pub enum Class {
    OpenRound,
    CloseRound,
    OpenSquare,
    CloseSquare,
    OpenCurly,
    CloseCurly,
    Semicolon,
    Comma,
    /// `if`, `else`, `while`, `for`, `do` and `?`
    Rises,
    /// `-`, `!`, `~`, `*` and `&`, which rise where no value stands before them
    Prefix,
    Other,
}

/// What is open behind a token.
#[derive(Drop)]
pub struct State {
    /// The counters of the levels around the innermost one, outermost first.
    pub around: Items<u32>,
    /// The sum of `around`.
    pub total: u32,
    /// The counter of the innermost level.
    pub here: u32,
    /// How many `(` are open.
    pub round: u32,
    /// How many `[` are open.
    pub square: u32,
    /// Whether the token is a name, a number, `)` or `]`.
    pub value: bool,
}

fn keyword_class(word: Keyword) -> Class
    ensures { result ≡ class_of_kind (Kind.Keyword word) }
{
    match word {
        Keyword::If | Keyword::Else | Keyword::While | Keyword::For | Keyword::Do => Class::Rises,
        _ => Class::Other,
    }
}

fn mark_class(mark: Mark) -> Class
    ensures { result ≡ class_of_kind (Kind.Mark mark) }
{
    match mark {
        Mark::OpenRound => Class::OpenRound,
        Mark::CloseRound => Class::CloseRound,
        Mark::OpenSquare => Class::OpenSquare,
        Mark::CloseSquare => Class::CloseSquare,
        Mark::OpenCurly => Class::OpenCurly,
        Mark::CloseCurly => Class::CloseCurly,
        Mark::Semicolon => Class::Semicolon,
        Mark::Comma => Class::Comma,
        Mark::Question => Class::Rises,
        Mark::Minus | Mark::Bang | Mark::Tilde | Mark::Star | Mark::Amp => Class::Prefix,
        _ => Class::Other,
    }
}

fn class_of(kind: &Kind) -> Class
    ensures { result ≡ class_of_kind kind.now }
{
    match kind {
        Kind::Name(_) => Class::Other,
        Kind::Number(_) => Class::Other,
        Kind::Keyword(word) => keyword_class(*word),
        Kind::Format(_) => Class::Other,
        Kind::Mark(mark) => mark_class(*mark),
    }
}

fn closes_value(mark: Mark) -> bool
    ensures { result ≡ is_value_of (Kind.Mark mark) }
{
    matches!(mark, Mark::CloseRound | Mark::CloseSquare)
}

fn is_value(kind: &Kind) -> bool
    ensures { result ≡ is_value_of kind.now }
{
    match kind {
        Kind::Name(_) => true,
        Kind::Number(_) => true,
        Kind::Keyword(_) => false,
        Kind::Format(_) => false,
        Kind::Mark(mark) => closes_value(*mark),
    }
}

fn next_is_else(tokens: &[Token], at: usize) -> bool
    requires { at ≤ length tokens.now }
    ensures { result ≡ next_is_else_of (drop at tokens.now) }
{
    at < tokens.len() && matches!(&tokens[at].kind, Kind::Keyword(Keyword::Else))
}

fn kept(stays: bool, n: u32) -> u32
    ensures { result ≡ (if stays then n else 0) }
{
    if stays { n } else { 0 }
}

/// What is open behind one more token; `stays` says that an `else` comes next.
fn turn(state: State, class: Class, value: bool, stays: bool) -> Result<State, AllocError>
    requires total { state.total ≡ sum state.around }
    requires bound { measure state ≤ 200 }
    ensures value { IfOk result (λ s. s ≡ step state class value stays) }
    ensures total { IfOk result (λ s. s.total ≡ sum s.around) }
    ensures bound { IfOk result (λ s. measure s ≤ 201) }
{
    let was = state.value;
    let mut next = state;
    next.value = value;
    match class {
        Class::OpenRound => {
            next.round += 1;
            Ok(next)
        }
        Class::CloseRound => {
            next.round = next.round.saturating_sub(1);
            Ok(next)
        }
        Class::OpenSquare => {
            next.square += 1;
            Ok(next)
        }
        Class::CloseSquare => {
            next.square = next.square.saturating_sub(1);
            Ok(next)
        }
        Class::OpenCurly => {
            let here = next.here;
            next.around.push(here)?;
            next.total += here;
            next.here = 0;
            Ok(next)
        }
        Class::CloseCurly => match next.around.pop() {
            None => Ok(next),
            Some(outer) => {
                next.total -= outer;
                next.here = kept(stays, outer);
                Ok(next)
            }
        },
        Class::Rises => {
            next.here += 1;
            Ok(next)
        }
        Class::Prefix => {
            if !was {
                next.here += 1;
            }
            Ok(next)
        }
        Class::Semicolon => {
            if next.round == 0 && !stays {
                next.here = 0;
            }
            Ok(next)
        }
        Class::Comma => {
            if next.round == 0 && next.square == 0 {
                next.here = 0;
            }
            Ok(next)
        }
        Class::Other => Ok(next),
    }
}

/// The start of the first token behind which the measure of nesting exceeds 200.
pub fn too_deep(alloc: Global, tokens: &[Token]) -> Result<Option<u32>, AllocError>
    ensures { IfOk result (λ at. at ≡ first_too_deep tokens.now) }
{
    let mut state = State {
        around: Items::new(alloc),
        total: 0,
        here: 0,
        round: 0,
        square: 0,
        value: false,
    };
    let mut at = 0;
    while at < tokens.len() {
        let stays = next_is_else(tokens, at + 1);
        let class = class_of(&tokens[at].kind);
        let value = is_value(&tokens[at].kind);
        state = turn(state, class, value, stays)?;
        if state.total + state.here + state.round + state.square + state.around.len() as u32 > 200 {
            return Ok(Some(tokens[at].span.from));
        }
        at += 1;
    }
    Ok(None)
}
