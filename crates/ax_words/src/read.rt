//! The orders besides `repair`, and the words of every order.
ghost use Rattle.std.specs.Prelude.{◌≡◌, ◌≢◌, map, string_bytes, codes, option_map};
ghost use Rattle.ax_words.specs.Commands.{Reads, check_app, gen_app, rank_app, run_app};
ghost use Rattle.ax_words.specs.Numbers.{field_of};
ghost use Rattle.ax_words.specs.Words.{Says, SaysCheck, SaysGen, SaysRank, SaysRepairOrder, SaysRun, gen_field, text_or};

use crate::commands::{check_command, gen_command, matched, rank_command, run_command, text_of};
use crate::numbers::{NumberOption, judge_numbers, steps_option, value};
use crate::prove::read_prove;
use crate::repair::read_repair;
use crate::{Order, WordFault};
use clap::ArgMatches;
use std::alloc::Global;

#[tactic(auto, using(crate::proofs::Said::same_reads))]
fn check_matches<'a>(alloc: Global, words: &'a [String]) -> Result<ArgMatches<'a>, WordFault>
    ensures { Reads check_app (map string_bytes words.entry.now) result }
{
    let command = check_command(alloc)?;
    matched(command, words)
}

#[tactic(auto, using(crate::proofs::Said::same_reads))]
fn run_matches<'a>(alloc: Global, words: &'a [String]) -> Result<ArgMatches<'a>, WordFault>
    ensures { Reads run_app (map string_bytes words.entry.now) result }
{
    let command = run_command(alloc)?;
    matched(command, words)
}

#[tactic(auto, using(crate::proofs::Said::same_reads))]
fn rank_matches<'a>(alloc: Global, words: &'a [String]) -> Result<ArgMatches<'a>, WordFault>
    ensures { Reads rank_app (map string_bytes words.entry.now) result }
{
    let command = rank_command(alloc)?;
    matched(command, words)
}

#[tactic(auto, using(crate::proofs::Said::same_reads))]
fn gen_matches<'a>(alloc: Global, words: &'a [String]) -> Result<ArgMatches<'a>, WordFault>
    ensures { Reads gen_app (map string_bytes words.entry.now) result }
{
    let command = gen_command(alloc)?;
    matched(command, words)
}

fn read_check(alloc: Global, words: &[String]) -> Result<Order, WordFault>
    ensures { SaysCheck (map string_bytes words.now) result }
{
    let matches = check_matches(alloc, words)?;
    let Some(source) = text_of(&matches, "SOURCE") else {
        return Err(WordFault::Refused);
    };
    let Some(tests) = text_of(&matches, "TESTS") else {
        return Err(WordFault::Refused);
    };
    let Some(patched) = text_of(&matches, "PATCHED") else {
        return Err(WordFault::Refused);
    };
    let Some(cert) = text_of(&matches, "CERT") else {
        return Err(WordFault::Refused);
    };
    Ok(Order::Check {
        source: String::from_str(alloc, source)?,
        tests: String::from_str(alloc, tests)?,
        patched: String::from_str(alloc, patched)?,
        cert: String::from_str(alloc, cert)?,
    })
}

#[tactic(auto, using(crate::proofs::Said::refused_numbers))]
fn read_run(alloc: Global, words: &[String]) -> Result<Order, WordFault>
    ensures { SaysRun (map string_bytes words.now) result }
{
    let matches = run_matches(alloc, words)?;
    let Some(source) = text_of(&matches, "SOURCE") else {
        return Err(WordFault::Refused);
    };
    let Some(tests) = text_of(&matches, "TESTS") else {
        return Err(WordFault::Refused);
    };
    let steps = steps_option(text_of(&matches, "steps"));
    if let Err(fault) = judge_numbers(alloc, &[steps]) {
        return Err(fault);
    }
    Ok(Order::Run {
        source: String::from_str(alloc, source)?,
        tests: String::from_str(alloc, tests)?,
        steps: value(&steps),
    })
}

// The formula's name, `jaccard` where none is given.
fn formula_or_default<'a>(text: Option<&'a str>) -> &'a str
    ensures { result.now ≡ text_or (codes "jaccard") (option_map (λ s. s.now) text.entry) }
{
    match text {
        Some(formula) => formula,
        None => "jaccard",
    }
}

#[tactic(auto, using(crate::proofs::Said::refused_numbers))]
fn read_rank(alloc: Global, words: &[String]) -> Result<Order, WordFault>
    ensures { SaysRank (map string_bytes words.now) result }
{
    let matches = rank_matches(alloc, words)?;
    let Some(source) = text_of(&matches, "SOURCE") else {
        return Err(WordFault::Refused);
    };
    let Some(tests) = text_of(&matches, "TESTS") else {
        return Err(WordFault::Refused);
    };
    let steps = steps_option(text_of(&matches, "steps"));
    if let Err(fault) = judge_numbers(alloc, &[steps]) {
        return Err(fault);
    }
    let formula = formula_or_default(text_of(&matches, "formula"));
    Ok(Order::Rank {
        source: String::from_str(alloc, source)?,
        tests: String::from_str(alloc, tests)?,
        formula: String::from_str(alloc, formula)?,
        steps: value(&steps),
    })
}

// The number of `gen`, which has no default.
fn gen_option<'a>(text: Option<&'a str>) -> NumberOption<'a>
    ensures { field_of result ≡ gen_field (option_map (λ s. s.now) text.entry) }
{
    NumberOption {
        name: "N",
        text,
        least: 1,
        most: 1_000_000,
        default: 0,
    }
}

fn read_gen(alloc: Global, words: &[String]) -> Result<Order, WordFault>
    ensures { SaysGen (map string_bytes words.now) result }
{
    let matches = gen_matches(alloc, words)?;
    let number = gen_option(text_of(&matches, "N"));
    if number.text.is_none() {
        return Err(WordFault::Refused);
    }
    judge_numbers(alloc, &[number])?;
    Ok(Order::Gen { n: value(&number) })
}

fn read_repair_order(alloc: Global, words: &[String]) -> Result<Order, WordFault>
    ensures { SaysRepairOrder (map string_bytes words.now) result }
{
    match read_repair(alloc, words) {
        Ok(order) => Ok(Order::Repair(order)),
        Err(fault) => Err(fault),
    }
}

/// The order that the words give, the first of them being the command.
///
/// Refusals come in this order: no command, an unknown command, words that the command doesn't take, a number that
/// isn't one, a number out of its range, a list that isn't as it must be, a choice made twice, two files of one name;
/// of one kind the first option in the order of the command's table.
pub fn read_words(alloc: Global, words: &[String]) -> Result<Order, WordFault>
    ensures { Says (map string_bytes words.now) result }
{
    let Some(first) = words.first() else {
        return Err(WordFault::NoCommand);
    };
    let command = first.as_str();
    if command == "repair" {
        read_repair_order(alloc, words)
    } else if command == "check" {
        read_check(alloc, words)
    } else if command == "run" {
        read_run(alloc, words)
    } else if command == "rank" {
        read_rank(alloc, words)
    } else if command == "gen" {
        read_gen(alloc, words)
    } else if command == "prove" {
        read_prove(alloc, words)
    } else {
        Err(WordFault::UnknownCommand)
    }
}
