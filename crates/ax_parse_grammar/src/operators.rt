//! Marks as operators.
ghost use Rattle.std.specs.Prelude.{◌≡◌, ◌≤◌};
ghost use Rattle.ax_parse_grammar.specs.Operators.{binary_of as binary_of_kind, level as level_of, prefix_of as prefix_of_kind, post_of as post_of_kind, compound_of as compound_of_kind, step_of as step_of_kind};

use crate::tree::Prefix;
use ax_prog::Bin;
use ax_prog::tokens::{Kind, Mark};

/// What a mark behind an operand says (C11 6.5.2).
#[derive(Clone, Copy, PartialEq, Eq, Debug)]
pub enum Post {
    Index,
    Member,
    Arrow,
    Call,
}

fn binary_mark(mark: Mark) -> Option<Bin>
    ensures { result ≡ binary_of_kind (Kind.Mark mark) }
{
    match mark {
        Mark::BarBar => Some(Bin::Or),
        Mark::AmpAmp => Some(Bin::And),
        Mark::Bar => Some(Bin::BitOr),
        Mark::Caret => Some(Bin::BitXor),
        Mark::Amp => Some(Bin::BitAnd),
        Mark::Equal => Some(Bin::Eq),
        Mark::NotEqual => Some(Bin::Ne),
        Mark::Less => Some(Bin::Lt),
        Mark::LessEqual => Some(Bin::Le),
        Mark::Greater => Some(Bin::Gt),
        Mark::GreaterEqual => Some(Bin::Ge),
        Mark::Shl => Some(Bin::Shl),
        Mark::Shr => Some(Bin::Shr),
        Mark::Plus => Some(Bin::Add),
        Mark::Minus => Some(Bin::Sub),
        Mark::Star => Some(Bin::Mul),
        Mark::Slash => Some(Bin::Div),
        Mark::Percent => Some(Bin::Rem),
        _ => None,
    }
}

/// The binary operator that a token is (C11 6.5.5 to 6.5.14).
pub fn binary_of(kind: &Kind) -> Option<Bin>
    ensures { result ≡ binary_of_kind kind.now }
{
    match kind {
        Kind::Name(_) => None,
        Kind::Number(_) => None,
        Kind::Keyword(_) => None,
        Kind::Format(_) => None,
        Kind::Mark(mark) => binary_mark(*mark),
    }
}

/// How tightly a binary operator binds: 1 for `||` to 10 for `*`.
pub fn level(op: Bin) -> usize
    ensures value { result ≡ level_of op }
    ensures small { result ≤ 10 }
{
    match op {
        Bin::Or => 1,
        Bin::And => 2,
        Bin::BitOr => 3,
        Bin::BitXor => 4,
        Bin::BitAnd => 5,
        Bin::Eq | Bin::Ne => 6,
        Bin::Lt | Bin::Le | Bin::Gt | Bin::Ge => 7,
        Bin::Shl | Bin::Shr => 8,
        Bin::Add | Bin::Sub => 9,
        Bin::Mul | Bin::Div | Bin::Rem => 10,
    }
}

fn prefix_mark(mark: Mark) -> Option<Prefix>
    ensures { result ≡ prefix_of_kind (Kind.Mark mark) }
{
    match mark {
        Mark::Minus => Some(Prefix::Neg),
        Mark::Bang => Some(Prefix::Not),
        Mark::Tilde => Some(Prefix::BitNot),
        Mark::Star => Some(Prefix::Deref),
        Mark::Amp => Some(Prefix::Address),
        _ => None,
    }
}

/// The unary operator that a token is (C11 6.5.3).
pub fn prefix_of(kind: &Kind) -> Option<Prefix>
    ensures { result ≡ prefix_of_kind kind.now }
{
    match kind {
        Kind::Name(_) => None,
        Kind::Number(_) => None,
        Kind::Keyword(_) => None,
        Kind::Format(_) => None,
        Kind::Mark(mark) => prefix_mark(*mark),
    }
}

fn post_mark(mark: Mark) -> Option<Post>
    ensures { result ≡ post_of_kind (Kind.Mark mark) }
{
    match mark {
        Mark::OpenSquare => Some(Post::Index),
        Mark::Dot => Some(Post::Member),
        Mark::Arrow => Some(Post::Arrow),
        Mark::OpenRound => Some(Post::Call),
        _ => None,
    }
}

/// What a token says behind an operand (C11 6.5.2).
pub fn post_of(kind: &Kind) -> Option<Post>
    ensures { result ≡ post_of_kind kind.now }
{
    match kind {
        Kind::Name(_) => None,
        Kind::Number(_) => None,
        Kind::Keyword(_) => None,
        Kind::Format(_) => None,
        Kind::Mark(mark) => post_mark(*mark),
    }
}

fn compound_mark(mark: Mark) -> Option<Bin>
    ensures { result ≡ compound_of_kind (Kind.Mark mark) }
{
    match mark {
        Mark::PlusAssign => Some(Bin::Add),
        Mark::MinusAssign => Some(Bin::Sub),
        Mark::StarAssign => Some(Bin::Mul),
        Mark::SlashAssign => Some(Bin::Div),
        Mark::PercentAssign => Some(Bin::Rem),
        Mark::AndAssign => Some(Bin::BitAnd),
        Mark::OrAssign => Some(Bin::BitOr),
        Mark::XorAssign => Some(Bin::BitXor),
        Mark::ShlAssign => Some(Bin::Shl),
        Mark::ShrAssign => Some(Bin::Shr),
        _ => None,
    }
}

/// The operator of the compound assignment that a token is (C11 6.5.16.2).
pub fn compound_of(kind: &Kind) -> Option<Bin>
    ensures { result ≡ compound_of_kind kind.now }
{
    match kind {
        Kind::Name(_) => None,
        Kind::Number(_) => None,
        Kind::Keyword(_) => None,
        Kind::Format(_) => None,
        Kind::Mark(mark) => compound_mark(*mark),
    }
}

fn step_mark(mark: Mark) -> Option<bool>
    ensures { result ≡ step_of_kind (Kind.Mark mark) }
{
    match mark {
        Mark::PlusPlus => Some(true),
        Mark::MinusMinus => Some(false),
        _ => None,
    }
}

/// Whether a token is `++`, and not `--` (C11 6.5.2.4, 6.5.3.1).
pub fn step_of(kind: &Kind) -> Option<bool>
    ensures { result ≡ step_of_kind kind.now }
{
    match kind {
        Kind::Name(_) => None,
        Kind::Number(_) => None,
        Kind::Keyword(_) => None,
        Kind::Format(_) => None,
        Kind::Mark(mark) => step_mark(*mark),
    }
}
