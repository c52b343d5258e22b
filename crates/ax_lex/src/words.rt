//! Names, keywords, formats and marks.
ghost use Rattle.std.specs.Prelude.{◌≡◌, ◌<◌, ℕ, IfOk, IfSome, IfNone, take, length, slice_index, None, true, false};
ghost use Rattle.std.specs.List.{prefix_len};
ghost use Rattle.std.specs.Char.{is_ascii_digit};
ghost use Rattle.ax_lex.specs.Bytes.{is_letter, is_word};
ghost use Rattle.ax_lex.specs.Tokens.{mark_of, format_of};
ghost use Rattle.ax_lex.specs.Fronts.{WordIs};

use crate::classes::{is_word, same};
use crate::tables::{keyword_of, mark_of};
use ax_prog::tokens::Kind;
use sqlite_items::Items;
use std::alloc::{AllocError, Global};

// How many bytes of a word stand first.
fn word_len(s: &[u8]) -> usize
    ensures { result ≡ prefix_len is_word s.now }
{
    s.iter().take_while(|b| is_word(**b)).count()
}

// The name or keyword whose first letter stands first, and its length.
pub(crate) fn take_word(alloc: Global, s: &[u8]) -> Result<(Kind, usize), AllocError>
    requires some { 0 < length s.now }
    requires letter { is_letter (slice_index s.now 0) ≡ true }
    requires no_digit { is_ascii_digit (slice_index s.now 0) ≡ false }
    ensures { IfOk result (λ r. WordIs r.0 r.1 s.now) }
{
    let n = word_len(s);
    let text = &s[..n];
    if let Some(keyword) = keyword_of(text) {
        return Ok((Kind::Keyword(keyword), n));
    }
    Ok((Kind::Name(Items::from_slice(alloc, text)?), n))
}

// The longest mark that stands first, and its length.
pub(crate) fn take_mark(s: &[u8]) -> Option<(Kind, usize)>
    requires some { 0 < length s.now }
    requires no_word { is_word (slice_index s.now 0) ≡ false }
    requires no_format { slice_index s.now 0 ≡ 34 → ⊥ }
    requires no_comment { slice_index s.now 0 ≡ 47 → (slice_index s.now 1 ≡ 47 → ⊥) × (slice_index s.now 1 ≡ 42 → ⊥) }
    ensures found { IfSome result (λ r. WordIs r.0 r.1 s.now) }
    ensures none { IfNone result (mark_of (take 1 s.now) ≡ None) }
{
    if s.len() >= 3 {
        if let Some(m) = mark_of(&s[..3]) {
            return Some((Kind::Mark(m), 3));
        }
    }
    if s.len() >= 2 {
        if let Some(m) = mark_of(&s[..2]) {
            return Some((Kind::Mark(m), 2));
        }
    }
    Some((Kind::Mark(mark_of(&s[..1])?), 1))
}

// The format that stands first, and its length.
pub(crate) fn take_format(s: &[u8]) -> Option<(Kind, usize)>
    ensures found { IfSome result (λ r. WordIs r.0 r.1 s.now) }
    ensures none { IfNone result ((n : ℕ) → format_of (take n s.now) ≡ None) }
{
    if s.len() >= 4 && same(b"\"%d\"", &s[..4]) {
        return Some((Kind::Format(0), 4));
    }
    if s.len() >= 6 && same(b"\"%d\\n\"", &s[..6]) {
        return Some((Kind::Format(1), 6));
    }
    if s.len() >= 5 && same(b"\"%d \"", &s[..5]) {
        return Some((Kind::Format(2), 5));
    }
    None
}
