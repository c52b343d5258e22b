//! What an order to rank reports, and which expressions an order to repair chooses by a ranker.
ghost use Rattle.std.specs.Prelude.{◌≡◌, ◌<◌, ◌+◌, ◌-◌, ◌^◌, IfOk, map, take};
ghost use Rattle.std.specs.List.{All};
ghost use Rattle.ax_rank_coverage.specs.Orders.{Chooses, HasSeenSome, IsRanked};

use crate::ordering::order;
use crate::text::order_text;
use ax_prog::{Program, Test};
use ax_rank::{Ranker, Standing};
use sqlite_items::Items;
use std::alloc::{AllocError, Global};

/// The candidates in the order of suspicion, as text, after the ranker has seen the runs of the tests; after want of
/// memory it has seen the runs of the first few tests.
pub fn report(
    alloc: Global,
    ranker: &mut dyn Ranker,
    program: &Program,
    tests: &[Test],
    steps: u32,
) -> Result<Items<u8>, AllocError>
    ensures ranked { IfOk result (IsRanked (formula ranker.old) (runs ranker.old) program.now steps tests.now) }
    ensures seen { HasSeenSome program.now steps tests.now (runs ranker.old) (runs ranker.new) }
    ensures title { title ranker.new ≡ title ranker.old }
    ensures formula { formula ranker.new ≡ formula ranker.old }
{
    let order = order(alloc, ranker, program, tests, steps)?;
    let text = order_text(alloc, order.as_slice())?;
    Ok(Items::from_vec(text))
}

// The first so many of the order, or all where there are fewer.
fn first_of(order: &[Standing], count: u32) -> &[Standing]
    ensures { result.now ≡ take count order.now }
{
    if count as usize <= order.len() {
        &order[..count as usize]
    } else {
        order
    }
}

// The numbers of candidates, from 1.
fn numbers_of(alloc: Global, order: &[Standing]) -> Result<Items<u64>, AllocError>
    requires { All (λ s. s.place < 2 ^ 64 - 1) order.now }
    ensures { IfOk result (λ numbers. numbers ≡ map (λ s. s.place + 1) order.now) }
{
    let mut numbers = Items::new(alloc);
    for standing in order {
        numbers.push(standing.place as u64 + 1)?;
    }
    Ok(numbers)
}

/// The numbers of the first `count` candidates in the order of suspicion, or of all where there are fewer, after the
/// ranker has seen the runs of the tests; after want of memory it has seen the runs of the first few tests.
pub fn choose(
    alloc: Global,
    ranker: &mut dyn Ranker,
    program: &Program,
    tests: &[Test],
    steps: u32,
    count: u32,
) -> Result<Items<u64>, AllocError>
    ensures chosen { IfOk result (Chooses (formula ranker.old) (runs ranker.old) program.now steps tests.now count) }
    ensures seen { HasSeenSome program.now steps tests.now (runs ranker.old) (runs ranker.new) }
    ensures title { title ranker.new ≡ title ranker.old }
    ensures formula { formula ranker.new ≡ formula ranker.old }
{
    let order = order(alloc, ranker, program, tests, steps)?;
    numbers_of(alloc, first_of(order.as_slice(), count))
}
