//! The order `repair`.
ghost use Rattle.std.specs.Prelude.{◌≡◌, ◌⊎◌, [], IfOk, IfErr, map, string_bytes, option_map, false, is_some, MatchResult, None, Some, true};
ghost use Rattle.clap.specs.Words.{first_of, found_of, rows_of};
ghost use Rattle.ax_words.specs.Numbers.{field_of, first_of_kind, is_misread, is_off_range, value_of};
ghost use Rattle.ax_words.specs.Words.{IsChoice, IsRepair, IsRepairOrder, JudgesNumbers, JudgesRepair, SaysRepair, bad_list_in, given_from, given_in, have_same_name, picks_read, repair_fields, sets_read, are_both, evals_field, grow_field, paths_field, steps_field, top_field};
ghost use Rattle.ax_words.specs.Texts.{GivesTexts, HoldsTexts, PicksRead, SetsRead, given_of};

use crate::commands::{matched, repair_command, text_of};
use crate::lists::{no_set, picks_in, sets_in};
use crate::numbers::{NumberOption, budget_option, judge_numbers, steps_option, value};
use crate::{Choice, RepairOrder, WordFault};
use ax_prog::{Bounds, Sets};
use clap::ArgMatches;
use sqlite_items::Items;
use std::alloc::{AllocError, Global};

/// The texts that `repair` reads.
#[derive(Clone, Copy)]
pub struct RepairTexts<'a> {
    pub source: &'a str,
    pub tests: &'a str,
    pub out: &'a str,
    pub cert: &'a str,
    pub top: Option<&'a str>,
    pub pick: Option<&'a str>,
    pub formula: Option<&'a str>,
    pub sets: Option<&'a str>,
    pub grow: Option<&'a str>,
    pub steps: Option<&'a str>,
    pub evals: Option<&'a str>,
    pub paths: Option<&'a str>,
    pub budget: Option<&'a str>,
}

// The texts that a parse found, where it found each file.
fn texts_under<'a>(matches: &ArgMatches<'a>) -> Option<RepairTexts<'a>>
    ensures { HoldsTexts (given_from (λ id. first_of id (rows_of (found_of matches.now)))) result }
{
    let Some(source) = text_of(matches, "SOURCE") else {
        return None;
    };
    let Some(tests) = text_of(matches, "TESTS") else {
        return None;
    };
    let Some(out) = text_of(matches, "OUT") else {
        return None;
    };
    let Some(cert) = text_of(matches, "CERT") else {
        return None;
    };
    Some(RepairTexts {
        source,
        tests,
        out,
        cert,
        top: text_of(matches, "top"),
        pick: text_of(matches, "pick"),
        formula: text_of(matches, "formula"),
        sets: text_of(matches, "with"),
        grow: text_of(matches, "grow"),
        steps: text_of(matches, "steps"),
        evals: text_of(matches, "evals"),
        paths: text_of(matches, "paths"),
        budget: text_of(matches, "budget"),
    })
}

// The texts, where the command takes the words.
fn repair_texts<'a>(alloc: Global, words: &'a [String]) -> Result<RepairTexts<'a>, WordFault>
    ensures { GivesTexts (map string_bytes words.entry.now) result }
{
    let command = repair_command(alloc)?;
    match matched(command, words) {
        Ok(matches) => match texts_under(&matches) {
            Some(texts) => Ok(texts),
            None => Err(WordFault::Refused),
        },
        Err(fault) => Err(fault),
    }
}

fn top_option<'a>(texts: &RepairTexts<'a>) -> NumberOption<'a>
    ensures { field_of result ≡ top_field (given_of texts.now) }
{
    NumberOption {
        name: "--top",
        text: texts.top,
        least: 1,
        most: 4,
        default: 1,
    }
}

fn grow_option<'a>(texts: &RepairTexts<'a>) -> NumberOption<'a>
    ensures { field_of result ≡ grow_field (given_of texts.now) }
{
    NumberOption {
        name: "--grow",
        text: texts.grow,
        least: 0,
        most: 2,
        default: 1,
    }
}

fn evals_option<'a>(texts: &RepairTexts<'a>) -> NumberOption<'a>
    ensures { field_of result ≡ evals_field (given_of texts.now) }
{
    NumberOption {
        name: "--evals",
        text: texts.evals,
        least: 1,
        most: 64,
        default: 16,
    }
}

fn paths_option<'a>(texts: &RepairTexts<'a>) -> NumberOption<'a>
    ensures { field_of result ≡ paths_field (given_of texts.now) }
{
    NumberOption {
        name: "--paths",
        text: texts.paths,
        least: 1,
        most: 4_096,
        default: 256,
    }
}

// The options that are numbers, in the order in which they are judged.
fn numbers_of<'a>(texts: &RepairTexts<'a>) -> [NumberOption<'a>; 6]
    ensures { map field_of result ≡ repair_fields (given_of texts.now) }
{
    [
        top_option(texts),
        grow_option(texts),
        steps_option(texts.steps),
        evals_option(texts),
        paths_option(texts),
        budget_option(texts.budget),
    ]
}

fn judge_texts(alloc: Global, texts: &RepairTexts<'_>) -> Result<(), WordFault>
    ensures { JudgesNumbers (repair_fields (given_of texts.now)) result }
{
    let options = numbers_of(texts);
    judge_numbers(alloc, &options)
}

// The picked numbers, where the option is given.
fn read_picks(alloc: Global, text: Option<&str>) -> Result<Option<Items<u32>>, WordFault>
    ensures { PicksRead (option_map (λ s. s.now) text.entry) result }
{
    let Some(list) = text else {
        return Ok(None);
    };
    match picks_in(alloc, list)? {
        Some(picks) => Ok(Some(picks)),
        None => Err(WordFault::BadList(String::from_str(alloc, "--pick")?)),
    }
}

// The sets named, or the default.
fn read_sets(alloc: Global, text: Option<&str>) -> Result<Sets, WordFault>
    ensures { SetsRead (option_map (λ s. s.now) text.entry) result }
{
    let Some(list) = text else {
        return Ok(Sets {
            cmp: true,
            logic: true,
            arith: true,
            vars: true,
            consts: true,
            ..no_set()
        });
    };
    match sets_in(list) {
        Some(sets) => Ok(sets),
        None => Err(WordFault::BadList(String::from_str(alloc, "--with")?)),
    }
}

fn share_a_name(texts: &RepairTexts<'_>) -> bool
    ensures { result ≡ have_same_name (given_of texts.now) }
{
    let (source, tests, out, cert) = (texts.source, texts.tests, texts.out, texts.cert);
    source == tests
        || source == out
        || source == cert
        || tests == out
        || tests == cert
        || out == cert
}

// The chosen expressions, where no number is misread or out of its range and `--pick` stands alone.
fn choice_of(
    alloc: Global,
    texts: &RepairTexts<'_>,
    top: u32,
    picks: Option<Items<u32>>,
) -> Result<Choice, AllocError>
    requires picks { picks_read (given_of texts.now).pick ≡ Some picks }
    requires top { top ≡ value_of (top_field (given_of texts.now)) }
    ensures { IfOk result (IsChoice (given_of texts.now)) }
{
    match picks {
        Some(numbers) => Ok(Choice::Pick(numbers)),
        None => Ok(Choice::Top {
            count: top,
            formula: String::from_str(alloc, texts.formula.unwrap_or("jaccard"))?,
        }),
    }
}

// `--pick` stands beside an option that chooses by a ranker.
fn chooses_twice(texts: &RepairTexts<'_>) -> bool
    ensures { result ≡ are_both (given_of texts.now) }
{
    texts.pick.is_some() && (texts.top.is_some() || texts.formula.is_some())
}

#[tactic(auto, using(crate::proofs::Fields::fine))]
fn bounds_of(texts: &RepairTexts<'_>) -> Bounds
    requires read { first_of_kind is_misread (repair_fields (given_of texts.now)) ≡ None }
    requires inside { first_of_kind is_off_range (repair_fields (given_of texts.now)) ≡ None }
    ensures steps { result.steps ≡ value_of (steps_field (given_of texts.now).steps) }
    ensures evals { result.evals ≡ value_of (evals_field (given_of texts.now)) }
    ensures grow { result.grow ≡ value_of (grow_field (given_of texts.now)) }
{
    Bounds {
        steps: value(&steps_option(texts.steps)),
        evals: value(&evals_option(texts)),
        grow: value(&grow_option(texts)),
    }
}

// The order, where no text is refused.
#[tactic(auto, using(crate::proofs::Fields::fine))]
fn order_with(
    alloc: Global,
    texts: &RepairTexts<'_>,
    picks: Option<Items<u32>>,
    sets: Sets,
) -> Result<RepairOrder, AllocError>
    requires read { first_of_kind is_misread (repair_fields (given_of texts.now)) ≡ None }
    requires inside { first_of_kind is_off_range (repair_fields (given_of texts.now)) ≡ None }
    requires picks { picks_read (given_of texts.now).pick ≡ Some picks }
    requires sets { sets_read (given_of texts.now).sets ≡ Some sets }
    ensures { IfOk result (IsRepairOrder (given_of texts.now)) }
{
    let choice = choice_of(alloc, texts, value(&top_option(texts)), picks)?;
    Ok(RepairOrder {
        source: String::from_str(alloc, texts.source)?,
        tests: String::from_str(alloc, texts.tests)?,
        out: String::from_str(alloc, texts.out)?,
        cert: String::from_str(alloc, texts.cert)?,
        choice,
        sets,
        bounds: bounds_of(texts),
        paths: value(&paths_option(texts)),
        budget: value(&budget_option(texts.budget)),
    })
}

// The order that the texts give, or the first refusal.
fn order_of(alloc: Global, texts: &RepairTexts<'_>) -> Result<RepairOrder, WordFault>
    ensures { JudgesRepair (given_of texts.now) result }
{
    judge_texts(alloc, texts)?;
    let picks = read_picks(alloc, texts.pick)?;
    let sets = read_sets(alloc, texts.sets)?;
    if chooses_twice(texts) {
        return Err(WordFault::Both);
    }
    if share_a_name(texts) {
        return Err(WordFault::SameName);
    }
    let order = order_with(alloc, texts, picks, sets)?;
    Ok(order)
}

/// What the words say after `repair`.
pub fn read_repair(alloc: Global, words: &[String]) -> Result<RepairOrder, WordFault>
    ensures { SaysRepair (map string_bytes words.now) result }
{
    let texts = repair_texts(alloc, words)?;
    order_of(alloc, &texts)
}
