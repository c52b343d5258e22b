//! The texts of keywords, marks and formats.
ghost use Rattle.std.specs.Prelude.{◌≡◌, map};
ghost use Rattle.ax_lex.specs.Tokens.{keyword_of, mark_of, lookup};

use crate::classes::same;
use ax_prog::tokens::{Keyword, Mark};

pub const KEYWORDS: [(&[u8], Keyword); 46] = [
    (b"auto", Keyword::Auto),
    (b"break", Keyword::Break),
    (b"case", Keyword::Case),
    (b"char", Keyword::Char),
    (b"const", Keyword::Const),
    (b"continue", Keyword::Continue),
    (b"default", Keyword::Default),
    (b"do", Keyword::Do),
    (b"double", Keyword::Double),
    (b"else", Keyword::Else),
    (b"enum", Keyword::Enum),
    (b"extern", Keyword::Extern),
    (b"float", Keyword::Float),
    (b"for", Keyword::For),
    (b"goto", Keyword::Goto),
    (b"if", Keyword::If),
    (b"inline", Keyword::Inline),
    (b"int", Keyword::Int),
    (b"long", Keyword::Long),
    (b"register", Keyword::Register),
    (b"restrict", Keyword::Restrict),
    (b"return", Keyword::Return),
    (b"short", Keyword::Short),
    (b"signed", Keyword::Signed),
    (b"sizeof", Keyword::Sizeof),
    (b"static", Keyword::Static),
    (b"struct", Keyword::Struct),
    (b"switch", Keyword::Switch),
    (b"typedef", Keyword::Typedef),
    (b"union", Keyword::Union),
    (b"unsigned", Keyword::Unsigned),
    (b"void", Keyword::Void),
    (b"volatile", Keyword::Volatile),
    (b"while", Keyword::While),
    (b"_Alignas", Keyword::Alignas),
    (b"_Alignof", Keyword::Alignof),
    (b"_Atomic", Keyword::Atomic),
    (b"_Bool", Keyword::Bool),
    (b"_Complex", Keyword::Complex),
    (b"_Generic", Keyword::Generic),
    (b"_Imaginary", Keyword::Imaginary),
    (b"_Noreturn", Keyword::Noreturn),
    (b"_Static_assert", Keyword::StaticAssert),
    (b"_Thread_local", Keyword::ThreadLocal),
    (b"scanf", Keyword::Scanf),
    (b"printf", Keyword::Printf),
];

pub const MARKS: [(&[u8], Mark); 45] = [
    (b"(", Mark::OpenRound),
    (b")", Mark::CloseRound),
    (b"{", Mark::OpenCurly),
    (b"}", Mark::CloseCurly),
    (b"[", Mark::OpenSquare),
    (b"]", Mark::CloseSquare),
    (b";", Mark::Semicolon),
    (b",", Mark::Comma),
    (b".", Mark::Dot),
    (b"->", Mark::Arrow),
    (b"=", Mark::Assign),
    (b"+=", Mark::PlusAssign),
    (b"-=", Mark::MinusAssign),
    (b"*=", Mark::StarAssign),
    (b"/=", Mark::SlashAssign),
    (b"%=", Mark::PercentAssign),
    (b"&=", Mark::AndAssign),
    (b"|=", Mark::OrAssign),
    (b"^=", Mark::XorAssign),
    (b"<<=", Mark::ShlAssign),
    (b">>=", Mark::ShrAssign),
    (b"++", Mark::PlusPlus),
    (b"--", Mark::MinusMinus),
    (b"+", Mark::Plus),
    (b"-", Mark::Minus),
    (b"*", Mark::Star),
    (b"/", Mark::Slash),
    (b"%", Mark::Percent),
    (b"&", Mark::Amp),
    (b"|", Mark::Bar),
    (b"^", Mark::Caret),
    (b"~", Mark::Tilde),
    (b"!", Mark::Bang),
    (b"&&", Mark::AmpAmp),
    (b"||", Mark::BarBar),
    (b"<", Mark::Less),
    (b"<=", Mark::LessEqual),
    (b">", Mark::Greater),
    (b">=", Mark::GreaterEqual),
    (b"==", Mark::Equal),
    (b"!=", Mark::NotEqual),
    (b"<<", Mark::Shl),
    (b">>", Mark::Shr),
    (b"?", Mark::Question),
    (b":", Mark::Colon),
];

/// Each format's text and its number in a token.
pub const FORMATS: [(&[u8], u8); 3] = [(b"\"%d\"", 0), (b"\"%d\\n\"", 1), (b"\"%d \"", 2)];

fn lookup<K: Copy>(mut table: &[(&[u8], K)], word: &[u8]) -> Option<K>
    ensures { result ≡ lookup (map (λ p. (p.0.now, p.1)) table.entry.now) word.now }
{
    while let [entry, rest @ ..] = table {
        if same(entry.0, word) {
            return Some(entry.1);
        }
        table = rest;
    }
    None
}

#[tactic(auto, unfolding(crate::specs::Tokens::keyword_of))]
pub(crate) fn keyword_of(text: &[u8]) -> Option<Keyword>
    ensures { result ≡ keyword_of text.now }
{
    lookup(&KEYWORDS, text)
}

#[tactic(auto, unfolding(crate::specs::Tokens::mark_of))]
pub(crate) fn mark_of(text: &[u8]) -> Option<Mark>
    ensures { result ≡ mark_of text.now }
{
    lookup(&MARKS, text)
}
