//! The tokens that the grammar names itself.
ghost use Rattle.std.specs.Prelude.{◌≡◌};
ghost use Rattle.ax_parse_grammar.specs.Terminals.{is as fits_kind};

use ax_prog::tokens::{Keyword, Kind, Mark};

/// A token that the grammar names itself.
#[derive(Clone, Copy, PartialEq, Eq, Debug)]
pub enum Terminal {
    Int,
    Struct,
    Void,
    If,
    Else,
    While,
    Do,
    For,
    Break,
    Continue,
    Return,
    Scanf,
    Printf,
    OpenRound,
    CloseRound,
    OpenSquare,
    CloseSquare,
    OpenCurly,
    CloseCurly,
    Semicolon,
    Comma,
    Dot,
    Arrow,
    Assign,
    Question,
    Colon,
    PlusPlus,
    MinusMinus,
    Star,
    Minus,
    Amp,
    /// The format `"%d"`.
    Format,
}

/// Whether a token of this kind is the terminal.
pub fn fits(what: Terminal, kind: &Kind) -> bool
    ensures { result ≡ fits_kind what kind.now }
{
    match what {
        Terminal::Int => matches!(kind, Kind::Keyword(Keyword::Int)),
        Terminal::Struct => matches!(kind, Kind::Keyword(Keyword::Struct)),
        Terminal::Void => matches!(kind, Kind::Keyword(Keyword::Void)),
        Terminal::If => matches!(kind, Kind::Keyword(Keyword::If)),
        Terminal::Else => matches!(kind, Kind::Keyword(Keyword::Else)),
        Terminal::While => matches!(kind, Kind::Keyword(Keyword::While)),
        Terminal::Do => matches!(kind, Kind::Keyword(Keyword::Do)),
        Terminal::For => matches!(kind, Kind::Keyword(Keyword::For)),
        Terminal::Break => matches!(kind, Kind::Keyword(Keyword::Break)),
        Terminal::Continue => matches!(kind, Kind::Keyword(Keyword::Continue)),
        Terminal::Return => matches!(kind, Kind::Keyword(Keyword::Return)),
        Terminal::Scanf => matches!(kind, Kind::Keyword(Keyword::Scanf)),
        Terminal::Printf => matches!(kind, Kind::Keyword(Keyword::Printf)),
        Terminal::OpenRound => matches!(kind, Kind::Mark(Mark::OpenRound)),
        Terminal::CloseRound => matches!(kind, Kind::Mark(Mark::CloseRound)),
        Terminal::OpenSquare => matches!(kind, Kind::Mark(Mark::OpenSquare)),
        Terminal::CloseSquare => matches!(kind, Kind::Mark(Mark::CloseSquare)),
        Terminal::OpenCurly => matches!(kind, Kind::Mark(Mark::OpenCurly)),
        Terminal::CloseCurly => matches!(kind, Kind::Mark(Mark::CloseCurly)),
        Terminal::Semicolon => matches!(kind, Kind::Mark(Mark::Semicolon)),
        Terminal::Comma => matches!(kind, Kind::Mark(Mark::Comma)),
        Terminal::Dot => matches!(kind, Kind::Mark(Mark::Dot)),
        Terminal::Arrow => matches!(kind, Kind::Mark(Mark::Arrow)),
        Terminal::Assign => matches!(kind, Kind::Mark(Mark::Assign)),
        Terminal::Question => matches!(kind, Kind::Mark(Mark::Question)),
        Terminal::Colon => matches!(kind, Kind::Mark(Mark::Colon)),
        Terminal::PlusPlus => matches!(kind, Kind::Mark(Mark::PlusPlus)),
        Terminal::MinusMinus => matches!(kind, Kind::Mark(Mark::MinusMinus)),
        Terminal::Star => matches!(kind, Kind::Mark(Mark::Star)),
        Terminal::Minus => matches!(kind, Kind::Mark(Mark::Minus)),
        Terminal::Amp => matches!(kind, Kind::Mark(Mark::Amp)),
        Terminal::Format => matches!(kind, Kind::Format(0)),
    }
}
