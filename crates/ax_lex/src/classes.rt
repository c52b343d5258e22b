//! Classes of bytes, and what stands behind the first ones.
ghost use Rattle.std.specs.Prelude.{◌≡◌, ◌≤◌, length, drop};
ghost use Rattle.ax_lex.specs.Bytes.{is_space, is_blank, digit, is_letter, is_word, same};

pub(crate) fn is_blank(b: u8) -> bool
    ensures { result ≡ is_blank b }
{
    b == b' ' || b == b'\t'
}

pub(crate) fn is_space(b: u8) -> bool
    ensures { result ≡ is_space b }
{
    b == b' ' || b == b'\t' || b == b'\n' || b == b'\r'
}

pub(crate) fn is_letter(b: u8) -> bool
    ensures { result ≡ is_letter b }
{
    b.is_ascii_alphabetic() || b == b'_'
}

pub(crate) fn is_word(b: u8) -> bool
    ensures { result ≡ is_word b }
{
    is_letter(b) || b.is_ascii_digit()
}

// 16 for a byte that is no digit.
pub(crate) fn digit(b: u8) -> u8
    ensures value { result ≡ digit b }
    ensures small { result ≤ 16 }
{
    if b.is_ascii_digit() {
        return b - b'0';
    }
    if b'A' <= b && b <= b'F' {
        return b - b'A' + 10;
    }
    if b'a' <= b && b <= b'f' {
        return b - b'a' + 10;
    }
    16
}

pub(crate) fn same(a: &[u8], b: &[u8]) -> bool
    ensures { result ≡ same a.now b.now }
{
    a == b
}

// All but the first n bytes.
pub(crate) fn past(s: &[u8], n: usize) -> &[u8]
    requires { n ≤ length s.now }
    ensures { result.now ≡ drop n s.now }
{
    &s[n..]
}
