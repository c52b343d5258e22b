//! What a token is to expressions.
ghost use Rattle.std.specs.Prelude.{◌≡◌};
ghost use Rattle.ax_parse_limits.specs.Scan.{class_of as class_of_kind};

use crate::counts::Class;
use ax_prog::tokens::{Keyword, Kind, Mark};

fn keyword_class(word: Keyword) -> Class
    ensures { result ≡ class_of_kind (Kind.Keyword word) }
{
    match word {
        Keyword::Return => Class::Return,
        Keyword::For => Class::For,
        Keyword::Scanf => Class::Scanf,
        _ => Class::Other,
    }
}

fn mark_class(mark: Mark) -> Class
    ensures { result ≡ class_of_kind (Kind.Mark mark) }
{
    match mark {
        Mark::OpenRound => Class::OpenRound,
        Mark::OpenSquare => Class::OpenSquare,
        Mark::CloseRound | Mark::CloseSquare => Class::Close,
        Mark::OpenCurly | Mark::CloseCurly => Class::Other,
        Mark::PlusPlus | Mark::MinusMinus => Class::Other,
        Mark::Semicolon => Class::Semicolon,
        Mark::Comma => Class::Comma,
        Mark::Dot | Mark::Arrow | Mark::Colon => Class::Link,
        Mark::Assign => Class::Sets,
        Mark::PlusAssign | Mark::MinusAssign | Mark::StarAssign => Class::Sets,
        Mark::SlashAssign | Mark::PercentAssign => Class::Sets,
        Mark::AndAssign | Mark::OrAssign | Mark::XorAssign => Class::Sets,
        Mark::ShlAssign | Mark::ShrAssign => Class::Sets,
        _ => Class::Operator,
    }
}

/// What a token of this kind is to expressions.
pub fn class_of(kind: &Kind) -> Class
    ensures { result ≡ class_of_kind kind.now }
{
    match kind {
        Kind::Name(_) => Class::Operand,
        Kind::Number(_) => Class::Operand,
        Kind::Keyword(word) => keyword_class(*word),
        Kind::Format(_) => Class::Link,
        Kind::Mark(mark) => mark_class(*mark),
    }
}
