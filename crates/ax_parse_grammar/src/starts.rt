//! How statements and declarations begin.
ghost use Rattle.std.specs.Prelude.{◌≡◌};
ghost use Rattle.ax_parse_grammar.specs.Starts.{start_of as start_of_kind};

use ax_prog::tokens::{Keyword, Kind, Mark};

/// What begins with a token.
#[derive(Clone, Copy, PartialEq, Eq, Debug)]
pub enum Start {
    Empty,
    Block,
    Decl,
    If,
    While,
    Do,
    For,
    Break,
    Continue,
    Return,
    Read,
    Print,
    /// A simple statement, where any statement begins so.
    Simple,
}

fn start_of_word(word: Keyword) -> Start
    ensures { result ≡ start_of_kind (Kind.Keyword word) }
{
    match word {
        Keyword::Int => Start::Decl,
        Keyword::Struct => Start::Decl,
        Keyword::If => Start::If,
        Keyword::While => Start::While,
        Keyword::Do => Start::Do,
        Keyword::For => Start::For,
        Keyword::Break => Start::Break,
        Keyword::Continue => Start::Continue,
        Keyword::Return => Start::Return,
        Keyword::Scanf => Start::Read,
        Keyword::Printf => Start::Print,
        _ => Start::Simple,
    }
}

fn start_of_mark(mark: Mark) -> Start
    ensures { result ≡ start_of_kind (Kind.Mark mark) }
{
    match mark {
        Mark::Semicolon => Start::Empty,
        Mark::OpenCurly => Start::Block,
        _ => Start::Simple,
    }
}

/// What begins with a token.
pub fn start_of(kind: &Kind) -> Start
    ensures { result ≡ start_of_kind kind.now }
{
    match kind {
        Kind::Name(_) => Start::Simple,
        Kind::Number(_) => Start::Simple,
        Kind::Keyword(word) => start_of_word(*word),
        Kind::Format(_) => Start::Simple,
        Kind::Mark(mark) => start_of_mark(*mark),
    }
}
