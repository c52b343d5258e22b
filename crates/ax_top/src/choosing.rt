//! Which expressions an order to repair chooses, by their numbers.
ghost use Rattle.std.specs.Prelude.{◌≡◌, IfOk, map};
ghost use Rattle.ax_rank_coverage.specs.Handed.{handed};
ghost use Rattle.ax_top.specs.Choices.{ChoosesNumbers, IsChoice};
ghost use Rattle.ax_top.specs.Orders.{HasRanker};

use crate::rankers::place_of;
use ax_prog::{Program, Test};
use ax_rank::Ranker;
use ax_rank_coverage::choose_in;
use ax_words::{Choice, RepairOrder};
use sqlite_items::Items;
use std::alloc::{AllocError, Global};

fn copy_numbers(alloc: Global, picked: &[u32]) -> Result<Items<u64>, AllocError>
    ensures { IfOk result (λ numbers. numbers ≡ picked.now) }
{
    let mut numbers = Items::new(alloc);
    for number in picked {
        numbers.push(u64::from(*number))?;
    }
    Ok(numbers)
}

fn choice_of(
    alloc: Global,
    choice: &Choice,
    rankers: &mut [Box<dyn Ranker>],
    program: &Program,
    tests: &[Test],
    steps: u32,
) -> Result<Items<u64>, AllocError>
    requires { HasRanker (map (λ r. handed (title r) (runs r) (formula r)) rankers.old) choice.now }
    ensures { IfOk result (IsChoice (map (λ r. handed (title r) (runs r) (formula r)) rankers.old) program.now tests.now steps choice.now) }
{
    match choice {
        Choice::Pick(picked) => copy_numbers(alloc, picked.as_slice()),
        Choice::Top { count, formula } => match place_of(rankers, formula.as_str()) {
            Some(at) => choose_in(alloc, rankers, at, program, tests, steps, *count),
            None => unreachable!(),
        },
    }
}

/// The numbers of the expressions that the order chooses: the picked ones, or those of the first candidates in the
/// order of suspicion. The first ranker of the name that the order needs sees the run of each test, and no other one
/// sees a run.
pub fn chosen_numbers(
    alloc: Global,
    order: &RepairOrder,
    rankers: &mut [Box<dyn Ranker>],
    program: &Program,
    tests: &[Test],
) -> Result<Items<u64>, AllocError>
    requires { HasRanker (map (λ r. handed (title r) (runs r) (formula r)) rankers.old) order.now.choice }
    ensures { IfOk result (ChoosesNumbers (map (λ r. handed (title r) (runs r) (formula r)) rankers.old) order.now program.now tests.now) }
{
    choice_of(
        alloc,
        &order.choice,
        rankers,
        program,
        tests,
        order.bounds.steps,
    )
}
