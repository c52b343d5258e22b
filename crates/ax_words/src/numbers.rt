//! Options whose text is a number.
ghost use Rattle.std.specs.Prelude.{◌≡◌, ◌≤◌, ◌<◌, ◌^◌, ℕ, option_map, map, false, None};
ghost use Rattle.ax_words.specs.Numbers.{number_of, field_of, first_of_kind, is_misread, is_off_range, value_of, is_number};
ghost use Rattle.ax_words.specs.Words.{JudgesNumbers, budget_of, steps_field};
ghost use Rattle.std.specs.Char.{is_ascii_digit};
ghost use Rattle.std.specs.List.{list_all};

use crate::WordFault;
use std::alloc::{AllocError, Global};

/// An option whose text is a number: its name, the text given, its range and its default.
#[derive(Clone, Copy)]
pub struct NumberOption<'a> {
    pub name: &'a str,
    pub text: Option<&'a str>,
    pub least: u32,
    pub most: u32,
    pub default: u32,
}

fn has_digits_alone(text: &[u8]) -> bool
    ensures { result ≡ list_all is_ascii_digit text.now }
{
    text.iter().all(|b| b.is_ascii_digit())
}

fn is_decimal(text: &[u8]) -> bool
    ensures { result ≡ is_number text.now }
{
    if text.is_empty() || text.len() > 10 {
        return false;
    }
    has_digits_alone(text)
}

/// The number that one to ten decimal digits write.
pub fn number(text: &str) -> Option<u64>
    ensures { result ≡ number_of text.now }
{
    if !is_decimal(text.as_bytes()) {
        return None;
    }
    match text.parse::<u64>() {
        Ok(number) => Some(number),
        Err(_) => None,
    }
}

// A text is given, and it is no number.
fn is_misread_option(option: &NumberOption<'_>) -> bool
    ensures { result ≡ is_misread (field_of option.now) }
{
    match option.text {
        Some(text) => number(text).is_none(),
        None => false,
    }
}

// The number that stands for an option, as far as `u64` holds it.
fn given_or_default(option: &NumberOption<'_>) -> u64
    requires { is_misread (field_of option.now) ≡ false }
    ensures { result ≡ value_of (field_of option.now) }
{
    match option.text {
        Some(text) => number(text).unwrap_or(0),
        None => option.default as u64,
    }
}

fn is_outside(option: &NumberOption<'_>) -> bool
    requires { is_misread (field_of option.now) ≡ false }
    ensures { result ≡ is_off_range (field_of option.now) }
{
    let value = given_or_default(option);
    value < (option.least as u64) || (option.most as u64) < value
}

/// The first option whose text is no number.
#[tactic(auto, using(crate::proofs::Fields::firsts))]
pub fn first_misread<'a>(options: &[NumberOption<'a>]) -> Option<&'a str>
    ensures { option_map (λ s. s.now) result ≡ first_of_kind is_misread (map field_of options.now) }
{
    for option in options {
        if is_misread_option(option) {
            return Some(option.name);
        }
    }
    None
}

/// The first option whose number is out of its range.
#[tactic(auto, using(crate::proofs::Fields::firsts))]
pub fn first_off_range<'a>(options: &[NumberOption<'a>]) -> Option<&'a str>
    requires { first_of_kind is_misread (map field_of options.now) ≡ None }
    ensures { option_map (λ s. s.now) result ≡ first_of_kind is_off_range (map field_of options.now) }
{
    for option in options {
        if is_outside(option) {
            return Some(option.name);
        }
    }
    None
}

/// The number that stands for an option of which neither `first_misread` nor `first_off_range` tells.
pub fn value(option: &NumberOption<'_>) -> u32
    requires read { is_misread (field_of option.now) ≡ false }
    requires inside { is_off_range (field_of option.now) ≡ false }
    ensures { result ≡ value_of (field_of option.now) }
{
    let _most = option.most;
    let value = given_or_default(option);
    value as u32
}

/// `--steps`, the bound on the steps of a run.
pub fn steps_option<'a>(text: Option<&'a str>) -> NumberOption<'a>
    ensures { field_of result ≡ steps_field (option_map (λ s. s.now) text.entry) }
{
    NumberOption {
        name: "--steps",
        text,
        least: 1,
        most: 1_000_000,
        default: 10_000,
    }
}

/// `--budget`, the bound on the lines of a proof.
pub fn budget_option<'a>(text: Option<&'a str>) -> NumberOption<'a>
    ensures { field_of result ≡ budget_of (option_map (λ s. s.now) text.entry) }
{
    NumberOption {
        name: "--budget",
        text,
        least: 1,
        most: 1_000_000,
        default: 100_000,
    }
}

/// Refuses the first number that is misread, or else the first that is out of its range.
pub fn judge_numbers(alloc: Global, options: &[NumberOption<'_>]) -> Result<(), WordFault>
    ensures { JudgesNumbers (map field_of options.now) result }
{
    if let Some(name) = first_misread(options) {
        return Err(WordFault::BadNumber(String::from_str(alloc, name)?));
    }
    if let Some(name) = first_off_range(options) {
        return Err(WordFault::OutOfRange(String::from_str(alloc, name)?));
    }
    Ok(())
}
