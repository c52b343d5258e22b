//! Numbers: decimal, octal and hexadecimal (C11 6.4.4.1).
ghost use Rattle.std.specs.Prelude.{◌≡◌, ◌≤◌, ◌<◌, ◌^◌, length, slice_index, true, take, IfOk, IfSome, IfNone, IfErr, nat_lt, pos};
ghost use Rattle.std.specs.List.{prefix_len};
ghost use Rattle.std.specs.Char.{is_ascii_digit};
ghost use Rattle.ax_lex.specs.Bytes.{digit, is_word, last_of};
ghost use Rattle.ax_lex.specs.Tokens.{value, is_hex, base_of, continues};
ghost use Rattle.ax_lex.specs.Fronts.{WordIs, NumberIs, Inside, head_of};

use crate::classes::{digit, is_word, past};
use ax_prog::tokens::Kind;

/// Why a digit begins no number.
#[derive(Clone, Copy, PartialEq, Eq, Debug)]
pub(crate) enum NumberFault {
    /// Above 2147483647.
    Large,
    /// Spoiled by the byte at this place.
    Bad(usize),
}

fn digits_len(s: &[u8], base: u8) -> usize
    ensures value { result ≡ prefix_len (λ b. nat_lt (digit b) base) s.now }
    ensures within { result ≤ length s.now }
{
    s.iter().take_while(|b| digit(**b) < base).count()
}

// The value, where it is no more than 2147483647.
fn value_of(mut s: &[u8], base: u8) -> Option<i32>
    requires base { (1 ≤ base) × (base ≤ 16) }
    ensures some { IfSome result (λ v. (v ≡ pos (value base 0 s.entry.now)) × (value base 0 s.entry.now ≤ 2147483647)) }
    ensures none { IfNone result (2147483647 < value base 0 s.entry.now) }
{
    let mut n: u64 = 0;
    while let [b, rest @ ..] = s {
        n = base as u64 * n + digit(*b) as u64;
        if n > 2147483647 {
            return None;
        }
        s = rest;
    }
    Some(n as i32)
}

fn is_hex(s: &[u8]) -> bool
    ensures { result ≡ is_hex s.now }
{
    s.len() >= 2 && s[0] == b'0' && (s[1] == b'x' || s[1] == b'X')
}

fn base_of(s: &[u8]) -> u8
    requires { 0 < length s.now }
    ensures value { result ≡ base_of s.now }
    ensures range { (1 ≤ result) × (result ≤ 16) }
{
    if is_hex(s) {
        return 16;
    }
    if s[0] == b'0' { 8 } else { 10 }
}

fn head_of(s: &[u8]) -> usize
    ensures value { result ≡ head_of s.now }
    ensures range { result ≤ length s.now }
{
    if is_hex(s) { 2 } else { 0 }
}

fn last_of(s: &[u8]) -> u8
    requires { 0 < length s.now }
    ensures { result ≡ last_of s.now }
{
    s[s.len() - 1]
}

// This byte would make a number that ends before it longer, or spoils it.
fn spoils(s: &[u8], b: u8) -> bool
    requires some { 0 < length s.now }
    requires word { is_word (slice_index s.now 0) ≡ true }
    ensures { result ≡ continues s.now b }
{
    let last = last_of(s);
    is_word(b) || (is_hex(s) && (last == b'e' || last == b'E') && (b == b'+' || b == b'-'))
}

// The number whose first digit stands first, and its length.
pub(crate) fn take_number(s: &[u8]) -> Result<(Kind, usize), NumberFault>
    requires some { 0 < length s.now }
    requires digit { is_ascii_digit (slice_index s.now 0) ≡ true }
    requires short { length s.now < 2 ^ 32 }
    ensures found { IfOk result (λ r. WordIs r.0 r.1 s.now) }
    ensures fault { IfErr result (λ e. NumberIs e s.now) }
    ensures within { IfErr result (λ e. Inside e s.now) }
{
    let head = head_of(s);
    let base = base_of(s);
    let end = head + digits_len(&s[head..], base);
    if end == 2 && is_hex(s) {
        return Err(NumberFault::Bad(1));
    }
    match value_of(&s[head..end], base) {
        None => Err(NumberFault::Large),
        Some(v) => {
            if end < s.len() && spoils(&s[..end], s[end]) {
                return Err(NumberFault::Bad(end));
            }
            Ok((Kind::Number(v), end))
        }
    }
}
