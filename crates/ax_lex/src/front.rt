//! What stands first: a space, a comment, an include, a token or a fault.
ghost use Rattle.std.specs.Prelude.{◌≡◌, ◌<◌, ◌^◌, ◌+◌, ◌⊎◌, ◌==◌, ◌||◌, ◌&&◌, Bool, ℕ, IsTrue, ◌↔◌, IfOk, IfErr, length, slice_index, true, false};
ghost use Rattle.std.specs.Char.{is_ascii_digit};
ghost use Rattle.ax_lex.specs.Bytes.{is_blank, is_space, is_word};
ghost use Rattle.ax_lex.specs.Fronts.{FrontIs};
ghost use Rattle.ax_lex.specs.Faults.{Stuck, late};

use crate::classes::{is_blank, is_letter, is_space, past};
use crate::layout::{block_body, include_len, line_len};
use crate::numbers::{NumberFault, take_number};
use crate::words::{take_format, take_mark, take_word};
use crate::{LexFault, MAX_TOKENS};
use ax_prog::tokens::Kind;
use std::alloc::Global;

#[derive(Drop)]
pub(crate) enum Front {
    /// So many bytes of a space, a comment or an include, and whether only blanks stand before the next byte on its line.
    Layout(usize, bool),
    /// A token of so many bytes.
    Word(Kind, usize),
}

// Only blanks stand before what follows this space on its line.
fn fresh_after_space(fresh: bool, b: u8) -> bool
    ensures { result ≡ ((b == 10) || (fresh && is_blank b)) }
{
    b == b'\n' || (fresh && is_blank(b))
}

// Token 20,001 begins before what stands in it.
fn late(count: usize, at: usize, fault: LexFault) -> LexFault
    ensures { result ≡ late count at fault }
{
    if MAX_TOKENS <= count {
        LexFault::TooManyTokens(at)
    } else {
        fault
    }
}

fn number_front(s: &[u8], at: usize, count: usize) -> Result<Front, LexFault>
    requires some { 0 < length s.now }
    requires place { at + length s.now < 2 ^ 32 }
    requires digit { is_ascii_digit (slice_index s.now 0) ≡ true }
    ensures found { (fresh : Bool) → IfOk result (λ x. FrontIs fresh x s.now) }
    ensures fault { (fresh : Bool) → IfErr result (λ e. Stuck at fresh count s.now e) }
{
    match take_number(s) {
        Ok((kind, n)) => Ok(Front::Word(kind, n)),
        Err(NumberFault::Large) => Err(LexFault::NumberTooLarge(at)),
        Err(NumberFault::Bad(n)) => Err(late(count, at, LexFault::BadByte(at + n))),
    }
}

// A slash and this byte stand first.
fn opens(s: &[u8], b: u8) -> bool
    ensures { IsTrue result ↔ ((1 < length s.now) × (slice_index s.now 0 ≡ 47) × (slice_index s.now 1 ≡ b)) }
{
    s.len() > 1 && s[0] == b'/' && s[1] == b
}

fn line_front(s: &[u8], at: usize) -> Result<Front, LexFault>
    requires place { at + length s.now < 2 ^ 32 }
    requires opened { (1 < length s.now) × (slice_index s.now 0 ≡ 47) × (slice_index s.now 1 ≡ 47) }
    ensures found { (fresh : Bool) → IfOk result (λ x. FrontIs fresh x s.now) }
    ensures fault { (fresh : Bool) → (count : ℕ) → IfErr result (λ e. Stuck at fresh count s.now e) }
{
    match line_len(s) {
        Ok(n) => Ok(Front::Layout(n, false)),
        Err(n) => Err(LexFault::BadByte(at + n)),
    }
}

fn block_front(s: &[u8], at: usize) -> Result<Front, LexFault>
    requires place { at + length s.now < 2 ^ 32 }
    requires opened { (1 < length s.now) × (slice_index s.now 0 ≡ 47) × (slice_index s.now 1 ≡ 42) }
    ensures found { (fresh : Bool) → IfOk result (λ x. FrontIs fresh x s.now) }
    ensures fault { (fresh : Bool) → (count : ℕ) → IfErr result (λ e. Stuck at fresh count s.now e) }
{
    match block_body(past(s, 2)) {
        Some(n) => Ok(Front::Layout(n + 4, false)),
        None => Err(LexFault::OpenComment(at)),
    }
}

fn include_front(s: &[u8], at: usize, fresh: bool) -> Result<Front, LexFault>
    requires some { 0 < length s.now }
    requires place { at + length s.now < 2 ^ 32 }
    requires hash { slice_index s.now 0 ≡ 35 }
    ensures found { IfOk result (λ x. FrontIs fresh x s.now) }
    ensures fault { (count : ℕ) → IfErr result (λ e. Stuck at fresh count s.now e) }
{
    match include_len(s, fresh) {
        Some(n) => Ok(Front::Layout(n, false)),
        None => Err(LexFault::BadByte(at)),
    }
}

fn format_front(s: &[u8], at: usize) -> Result<Front, LexFault>
    requires some { 0 < length s.now }
    requires quote { slice_index s.now 0 ≡ 34 }
    ensures found { (fresh : Bool) → IfOk result (λ x. FrontIs fresh x s.now) }
    ensures fault { (fresh : Bool) → (count : ℕ) → IfErr result (λ e. Stuck at fresh count s.now e) }
{
    match take_format(s) {
        Some((kind, n)) => Ok(Front::Word(kind, n)),
        None => Err(LexFault::BadByte(at)),
    }
}

fn mark_front(s: &[u8], at: usize) -> Result<Front, LexFault>
    requires some { 0 < length s.now }
    requires no_space { is_space (slice_index s.now 0) ≡ false }
    requires no_word { is_word (slice_index s.now 0) ≡ false }
    requires no_include { slice_index s.now 0 ≡ 35 → ⊥ }
    requires no_format { slice_index s.now 0 ≡ 34 → ⊥ }
    requires no_comment { slice_index s.now 0 ≡ 47 → (slice_index s.now 1 ≡ 47 → ⊥) × (slice_index s.now 1 ≡ 42 → ⊥) }
    ensures found { (fresh : Bool) → IfOk result (λ x. FrontIs fresh x s.now) }
    ensures fault { (fresh : Bool) → (count : ℕ) → IfErr result (λ e. Stuck at fresh count s.now e) }
{
    match take_mark(s) {
        Some((kind, n)) => Ok(Front::Word(kind, n)),
        None => Err(LexFault::BadByte(at)),
    }
}

// What stands first, at the place `at` and behind `count` tokens.
pub(crate) fn first(
    alloc: Global,
    s: &[u8],
    at: usize,
    fresh: bool,
    count: usize,
) -> Result<Front, LexFault>
    requires some { 0 < length s.now }
    requires place { at + length s.now < 2 ^ 32 }
    ensures found { IfOk result (λ x. FrontIs fresh x s.now) }
    ensures fault { IfErr result (λ e. (e ≡ LexFault.Memory) ⊎ Stuck at fresh count s.now e) }
{
    let b = s[0];
    if is_space(b) {
        return Ok(Front::Layout(1, fresh_after_space(fresh, b)));
    }
    if b.is_ascii_digit() {
        return number_front(s, at, count);
    }
    if is_letter(b) {
        let (kind, n) = take_word(alloc, s)?;
        return Ok(Front::Word(kind, n));
    }
    if opens(s, b'/') {
        return line_front(s, at);
    }
    if opens(s, b'*') {
        return block_front(s, at);
    }
    if b == b'#' {
        return include_front(s, at, fresh);
    }
    if b == b'"' {
        return format_front(s, at);
    }
    mark_front(s, at)
}
