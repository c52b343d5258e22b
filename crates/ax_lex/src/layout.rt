//! Comments (C11 6.4.9) and includes.
ghost use Rattle.std.specs.Prelude.{◌≡◌, ◌≤◌, ◌<◌, ◌^◌, ◌+◌, ◌==◌, ◌||◌, not, Bool, ℕ, IfOk, IfErr, IfSome, IfNone, length, slice_index, false};
ghost use Rattle.std.specs.List.{prefix_len};
ghost use Rattle.ax_lex.specs.declared.LexFault.TheVariants.{BadByte};
ghost use Rattle.ax_lex.specs.Bytes.{is_blank};
ghost use Rattle.ax_lex.specs.Fronts.{LayoutIs, end_of};
ghost use Rattle.ax_lex.specs.Faults.{Stuck, NoInclude};

use crate::classes::{is_blank, past, same};

// How many bytes stand before the line feed.
fn line_body(s: &[u8]) -> usize
    ensures value { result ≡ prefix_len (λ b. not (b == 10)) s.now }
    ensures within { result ≤ length s.now }
{
    s.iter().take_while(|b| **b != b'\n').count()
}

// The length of a comment whose two slashes stand first, or the place of the backslash that would go on with it.
pub(crate) fn line_len(s: &[u8]) -> Result<usize, usize>
    requires some { 2 ≤ length s.now }
    requires slashes { (slice_index s.now 0 ≡ 47) × (slice_index s.now 1 ≡ 47) }
    ensures found { (fresh : Bool) → IfOk result (λ n. LayoutIs fresh n false s.now) }
    ensures fault { (at : ℕ) → (fresh : Bool) → (count : ℕ) → IfErr result (λ n. Stuck at fresh count s.now (BadByte (at + n))) }
    ensures within { IfErr result (λ n. n < length s.now) }
{
    let n = line_body(&s[2..]);
    if n + 2 < s.len() && 0 < n && s[n + 1] == b'\\' {
        return Err(n + 1);
    }
    Ok(n + 2)
}

// How many bytes stand before the first `*/`.
pub(crate) fn block_body(mut s: &[u8]) -> Option<usize>
    requires { length s.now < 2 ^ 32 }
    ensures value { result ≡ end_of s.entry.now }
    ensures within { IfSome result (λ n. n < 2 ^ 32) }
{
    let mut n = 0;
    while let [b, rest @ ..] = s {
        if *b == b'*' && !rest.is_empty() && rest[0] == b'/' {
            return Some(n);
        }
        s = rest;
        n += 1;
    }
    None
}

fn blanks_len(s: &[u8]) -> usize
    ensures value { result ≡ prefix_len is_blank s.now }
    ensures within { result ≤ length s.now }
{
    s.iter().take_while(|b| is_blank(**b)).count()
}

fn path_len(s: &[u8]) -> usize
    ensures value { result ≡ prefix_len (λ b. not (b == 62 || b == 10)) s.now }
    ensures within { result ≤ length s.now }
{
    s.iter()
        .take_while(|b| !(**b == b'>' || **b == b'\n'))
        .count()
}

// The length of an `#include <..>` whose `#` stands first.
pub(crate) fn include_len(s: &[u8], fresh: bool) -> Option<usize>
    requires some { 0 < length s.now }
    requires short { length s.now < 2 ^ 32 }
    requires hash { slice_index s.now 0 ≡ 35 }
    ensures found { IfSome result (λ n. LayoutIs fresh n false s.now) }
    ensures none { IfNone result (NoInclude fresh s.now) }
{
    if !fresh {
        return None;
    }
    let after = past(s, 1);
    let a = blanks_len(after);
    let word = past(after, a);
    if word.len() < 7 {
        return None;
    }
    if !same(b"include", &word[..7]) {
        return None;
    }
    let rest = past(word, 7);
    let b = blanks_len(rest);
    let angle = past(rest, b);
    if angle.len() == 0 {
        return None;
    }
    if angle[0] != b'<' {
        return None;
    }
    let path = past(angle, 1);
    let n = path_len(path);
    let close = past(path, n);
    if close.len() == 0 {
        return None;
    }
    if close[0] != b'>' {
        return None;
    }
    Some(a + b + n + 10)
}
