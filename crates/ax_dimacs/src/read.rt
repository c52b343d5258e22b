//! Clause files, read.

ghost use Rattle.std.specs.Prelude.{All, ◌≡◌, ◌<◌, ◌≤◌, ◌^◌, length, codes, false, true, Bool, option_map, Ok, Err, Some, None, IfOk, IfErr, IfSome, [], ◌∷◌};
ghost use Rattle.std.specs.Char.{is_ascii_digit};
ghost use Rattle.std.specs.List.{list_all};
ghost use Rattle.ax_proof.specs.Literal.{IsOver};
ghost use Rattle.ax_proof.specs.Denied.{IfFault};
ghost use Rattle.ax_dimacs.specs.Words.{left, end};
ghost use Rattle.ax_dimacs.specs.Clauses.{Reads, clauses_of, head_of, is_number, literal_of, number_of, number_within, only, taken};

use crate::words::Words;
use ax_gates::push_clause;
use ax_proof::{Clause, Cnf, Denied, Lit};
use std::alloc::Global;

/// The most variables that a clause file may have.
pub const MAX_VARS: u64 = 10_000_000;

/// The most that a number of ten digits says.
const MAX_NUMBER: u64 = 9_999_999_999;

/// Where bytes stop being a clause file: the first byte of the first word that doesn't fit, or their number where a word is
/// wanting.
#[derive(Clone, Copy, PartialEq, Eq, Debug)]
pub struct CnfFault {
    pub at: usize,
}

fn has_digits_alone(text: &[u8]) -> bool
    ensures { result ≡ list_all is_ascii_digit text.now }
{
    text.iter().all(|b| b.is_ascii_digit())
}

fn is_number(text: &[u8]) -> bool
    ensures { result ≡ is_number text.now }
{
    if text.is_empty() || text.len() > 10 {
        return false;
    }
    has_digits_alone(text)
}

/// The number that one to ten decimal digits write.
fn number(text: &[u8]) -> Option<u64>
    ensures { result ≡ number_of text.now }
{
    if !is_number(text) {
        return None;
    }
    let mut n = 0;
    for b in text {
        n = n * 10 + (*b - b'0') as u64;
    }
    Some(n)
}

fn literal(vars: u64, text: &[u8]) -> Option<Lit>
    requires { vars < 2 ^ 63 }
    ensures { result ≡ literal_of vars text.now }
{
    let (digits, positive) = match text {
        [b'-', digits @ ..] => (digits, false),
        _ => (text, true),
    };
    let n = number(digits)?;
    if n == 0 || vars < n {
        return None;
    }
    Some(Lit::new(n, positive))
}

/// Takes this word.
fn take_word(words: &mut Words<'_>, name: &[u8]) -> Result<(), CnfFault>
    requires { end words.old < 2 ^ 64 }
    ensures taken { IfOk result (λ _. taken (end words.old) (only name.now) (left words.old) ≡ Ok (tt, left words.new)) }
    ensures fault { IfErr result (λ e. taken (end words.old) (only name.now) (left words.old) ≡ Err e.at) }
    ensures end { end words.new ≡ end words.old }
{
    match words.next() {
        Some(word) if word.text == name => Ok(()),
        Some(word) => Err(CnfFault { at: word.at }),
        None => Err(CnfFault { at: words.at }),
    }
}

/// Takes a number of at most `most`.
fn take_number(words: &mut Words<'_>, most: u64) -> Result<u64, CnfFault>
    requires { end words.old < 2 ^ 64 }
    ensures taken { IfOk result (λ n. taken (end words.old) (number_within most) (left words.old) ≡ Ok (n, left words.new)) }
    ensures within { IfOk result (λ n. n ≤ most) }
    ensures fault { IfErr result (λ e. taken (end words.old) (number_within most) (left words.old) ≡ Err e.at) }
    ensures end { end words.new ≡ end words.old }
{
    let Some(word) = words.next() else {
        return Err(CnfFault { at: words.at });
    };
    match number(word.text) {
        Some(n) if n <= most => Ok(n),
        _ => Err(CnfFault { at: word.at }),
    }
}

/// Takes the head, and gives its number of variables.
fn take_head(words: &mut Words<'_>) -> Result<u64, CnfFault>
    requires { end words.old < 2 ^ 64 }
    ensures head { IfOk result (λ vars. head_of (end words.old) (left words.old) ≡ Ok (vars, left words.new)) }
    ensures within { IfOk result (λ vars. vars ≤ MAX_VARS) }
    ensures fault { IfErr result (λ e. head_of (end words.old) (left words.old) ≡ Err e.at) }
    ensures end { end words.new ≡ end words.old }
{
    take_word(words, b"p")?;
    take_word(words, b"cnf")?;
    let vars = take_number(words, MAX_VARS)?;
    take_number(words, MAX_NUMBER)?;
    Ok(vars)
}

/// Takes the clauses over so many variables.
fn take_clauses(
    alloc: Global,
    words: &mut Words<'_>,
    vars: u64,
) -> Result<Vec<Clause>, Denied<CnfFault>>
    requires end { end words.old < 2 ^ 64 }
    requires vars { vars < 2 ^ 63 }
    ensures clauses { IfOk result (λ clauses. clauses_of vars [] (left words.old) ≡ Ok clauses.items) }
    ensures fault { IfErr result (λ denied. IfFault denied (λ e. clauses_of vars [] (left words.old) ≡ Err e.at)) }
{
    let mut clauses = Vec::new(alloc);
    let mut open: Vec<Lit> = Vec::new(alloc);
    while let Some(word) = words.next() {
        if word.text == b"0".as_slice() {
            push_clause(alloc, &mut clauses, open.as_slice())?;
            open.clear();
        } else if word.text == b"%".as_slice() && open.is_empty() {
            return Ok(clauses);
        } else {
            let Some(lit) = literal(vars, word.text) else {
                return Err(Denied::Fault(CnfFault { at: word.at }));
            };
            open.push(lit)?;
        }
    }
    if !open.is_empty() {
        push_clause(alloc, &mut clauses, open.as_slice())?;
    }
    Ok(clauses)
}

/// The clauses of a file in the profile of DIMACS (docs/FORMATS.md), or where it first leaves the profile. Clauses with a
/// literal and its negation are left out, and a literal that stands twice in a clause counts once.
pub fn read_cnf(alloc: Global, bytes: &[u8]) -> Result<Cnf, Denied<CnfFault>>
    ensures reads { Reads bytes.now result }
    ensures few { IfOk result (λ cnf. cnf.vars ≤ MAX_VARS) }
    ensures over { IfOk result (λ cnf. All (IsOver cnf.vars) cnf.clauses.items) }
{
    let mut words = Words::new(bytes);
    let vars = match take_head(&mut words) {
        Ok(vars) => vars,
        Err(fault) => return Err(Denied::Fault(fault)),
    };
    let clauses = take_clauses(alloc, &mut words, vars)?;
    Ok(Cnf { vars, clauses })
}
