//! The orders, command by command: what each comes to, or what stops it.
ghost use Rattle.std.specs.Prelude.{◌≡◌, ◌≤◌, map, string_bytes};
ghost use Rattle.ax_rank_coverage.specs.Handed.{handed};
ghost use Rattle.ax_outside.specs.Seen.{NoLess, Same};
ghost use Rattle.ax_top.specs.Orders.{CheckStops, ChoiceJudged, PicksJudged, RepairJudged, first_beyond, numbers_of};
ghost use Rattle.ax_top.specs.Ends.{Ends, GrowsLittle, IsOther, told_answer};
ghost use Rattle.ax_top.specs.Repairs.{RepairEnds};

use crate::answer::{Answer, search};
use crate::files::{File, Stop, read_file};
use crate::judging::{Judged, judge_files};
use crate::rankers::judge_ranker;
use crate::telling::{Told, rank, run};
use ax_outside::Shelf;
use ax_prog::Program;
use ax_rank::Ranker;
use ax_words::{Choice, Order, RepairOrder};
use std::alloc::Global;

// Whether a choice by a formula has its ranker.
fn judge_choice(choice: &Choice, rankers: &[Box<dyn Ranker>]) -> Result<(), Stop>
    ensures { ChoiceJudged (map (λ r. handed (title r) (runs r) (formula r)) rankers.now) choice.now result }
{
    match choice {
        Choice::Top { formula, .. } => match judge_ranker(rankers, formula.as_str()) {
            Ok(_) => Ok(()),
            Err(stop) => Err(stop),
        },
        Choice::Pick(_) => Ok(()),
    }
}

fn beyond(numbers: &[u32], count: usize) -> Option<u32>
    ensures { result ≡ first_beyond count numbers.now }
{
    let mut rest = numbers;
    while let [first, after @ ..] = rest {
        if count < *first as usize {
            return Some(*first);
        }
        rest = after;
    }
    None
}

// Whether each of the numbers is a candidate's.
fn judge_numbers(alloc: Global, numbers: &[u32], program: &Program) -> Result<(), Stop>
    ensures { PicksJudged numbers.now program.now result }
{
    let count = match program.candidates(alloc) {
        Ok(candidates) => candidates.len(),
        Err(_) => return Err(Stop::Memory),
    };
    match beyond(numbers, count) {
        Some(picked) => Err(Stop::NoCandidate { picked, count }),
        None => Ok(()),
    }
}

fn judge_picks(alloc: Global, choice: &Choice, program: &Program) -> Result<(), Stop>
    ensures { PicksJudged (numbers_of choice.now) program.now result }
{
    match choice {
        Choice::Top { .. } => Ok(()),
        Choice::Pick(numbers) => judge_numbers(alloc, numbers.as_slice(), program),
    }
}

// What an order to repair is judged by, in the order in which it is refused.
fn judge_repair<S: Shelf>(
    alloc: Global,
    order: &RepairOrder,
    rankers: &[Box<dyn Ranker>],
    shelf: &mut S,
) -> Result<Judged, Stop>
    ensures judged { RepairJudged (S.seen shelf.old) (S.seen shelf.new) (map (λ r. handed (title r) (runs r) (formula r)) rankers.now) order.now result }
    ensures same { Same (S.seen shelf.old) (S.seen shelf.new) }
    ensures counts { NoLess (S.seen shelf.old) (S.seen shelf.new) }
{
    judge_choice(&order.choice, rankers)?;
    let judged = judge_files(alloc, order.source.as_str(), order.tests.as_str(), shelf)?;
    judge_picks(alloc, &order.choice, &judged.source.program)?;
    Ok(judged)
}

fn repair<S: Shelf>(
    alloc: Global,
    order: &RepairOrder,
    rankers: &mut [Box<dyn Ranker>],
    shelf: &mut S,
) -> Result<Answer, Stop>
    requires { order.now.bounds.grow ≤ 20 }
    ensures ends { RepairEnds (S.seen shelf.old) (S.seen shelf.new) (map (λ r. handed (title r) (runs r) (formula r)) rankers.old) order.now result }
    ensures same { Same (S.seen shelf.old) (S.seen shelf.new) }
    ensures counts { NoLess (S.seen shelf.old) (S.seen shelf.new) }
{
    match judge_repair(alloc, order, rankers, shelf) {
        Err(stop) => Err(stop),
        Ok(judged) => search(
            alloc,
            order,
            rankers,
            judged.source.bytes.as_slice(),
            &judged.source.program,
            &judged.suite,
        ),
    }
}

fn check<S: Shelf>(alloc: Global, source: &str, tests: &str, cert: &str, shelf: &mut S) -> Stop
    ensures stops { CheckStops (S.seen shelf.old) (S.seen shelf.new) source.now tests.now cert.now result }
    ensures same { Same (S.seen shelf.old) (S.seen shelf.new) }
    ensures counts { NoLess (S.seen shelf.old) (S.seen shelf.new) }
{
    match judge_files(alloc, source, tests, shelf) {
        Err(stop) => stop,
        Ok(_) => match read_file(alloc, shelf, cert, File::Cert) {
            Err(stop) => stop,
            Ok(_) => Stop::NotBuilt,
        },
    }
}

// The answer of which only a report comes.
fn told(end: Result<Told, Stop>) -> Result<Answer, Stop>
    ensures { result ≡ told_answer end }
{
    match end {
        Ok(told) => Ok(Answer::Reported(told)),
        Err(stop) => Err(stop),
    }
}

/// What an order other than to prove comes to, before anything is put or printed: its answer, or what stops it.
pub fn result_of<S: Shelf>(
    alloc: Global,
    order: &Order,
    rankers: &mut [Box<dyn Ranker>],
    shelf: &mut S,
) -> Result<Answer, Stop>
    requires grows { GrowsLittle order.now }
    requires other { IsOther order.now }
    ensures ends { Ends (S.seen shelf.old) (S.seen shelf.new) (map (λ r. handed (title r) (runs r) (formula r)) rankers.old) order.now result }
    ensures same { Same (S.seen shelf.old) (S.seen shelf.new) }
    ensures counts { NoLess (S.seen shelf.old) (S.seen shelf.new) }
{
    match order {
        Order::Repair(order) => repair(alloc, order, rankers, shelf),
        Order::Check {
            source,
            tests,
            cert,
            ..
        } => Err(check(alloc, source.as_str(), tests.as_str(), cert.as_str(), shelf)),
        Order::Run {
            source,
            tests,
            steps,
        } => told(run(alloc, source.as_str(), tests.as_str(), *steps, shelf)),
        Order::Rank {
            source,
            tests,
            formula,
            steps,
        } => told(rank(
            alloc,
            source.as_str(),
            tests.as_str(),
            formula.as_str(),
            *steps,
            rankers,
            shelf,
        )),
        Order::Gen { .. } => Err(Stop::NotBuilt),
        Order::Prove { .. } => unreachable!(),
    }
}
