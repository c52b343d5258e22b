//! The order `prove`.
ghost use Rattle.std.specs.Prelude.{map, string_bytes};
ghost use Rattle.ax_words.specs.Commands.{Reads, prove_app};
ghost use Rattle.ax_words.specs.Words.{SaysProve};

use crate::commands::{matched, prove_command, text_of};
use crate::numbers::{budget_option, judge_numbers, value};
use crate::{Order, WordFault};
use clap::ArgMatches;
use std::alloc::Global;

#[tactic(auto, using(crate::proofs::Said::same_reads))]
fn prove_matches<'a>(alloc: Global, words: &'a [String]) -> Result<ArgMatches<'a>, WordFault>
    ensures { Reads prove_app (map string_bytes words.entry.now) result }
{
    let command = prove_command(alloc)?;
    matched(command, words)
}

/// What the words of `prove` say.
pub fn read_prove(alloc: Global, words: &[String]) -> Result<Order, WordFault>
    ensures { SaysProve (map string_bytes words.now) result }
{
    let matches = prove_matches(alloc, words)?;
    let Some(cnf) = text_of(&matches, "CNF") else {
        return Err(WordFault::Refused);
    };
    let Some(proof) = text_of(&matches, "PROOF") else {
        return Err(WordFault::Refused);
    };
    let budget = budget_option(text_of(&matches, "budget"));
    if let Err(fault) = judge_numbers(alloc, &[budget]) {
        return Err(fault);
    }
    if cnf == proof {
        return Err(WordFault::SameName);
    }
    Ok(Order::Prove {
        cnf: String::from_str(alloc, cnf)?,
        proof: String::from_str(alloc, proof)?,
        budget: value(&budget),
    })
}
