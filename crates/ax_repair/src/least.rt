//! The search: all patches of cost 0, then those of cost 1, and so on.
ghost use Rattle.std.specs.Prelude.{◌≡◌, ℕ, IfOk, MatchOption};
ghost use Rattle.ax_least.specs.Least.{IsLeastRepair, NoRepair};
ghost use Rattle.ax_repair.specs.Search.{IsSearchable, IsRepairOfCost, NoRepairOfCost};

use crate::trying::first_repair;
use ax_prog::{Bounds, Program, Test};
use ax_space::laws::{constants_are_ints, cost_exists, costed_is_patch};
use ax_space::{Patch, Space};
use std::alloc::{AllocError, Global};

/// A repair with its cost.
#[derive(Drop)]
pub struct Found {
    pub patch: Patch,
    pub cost: u32,
}

// The first repair of this cost.
fn repair_of_cost(
    alloc: Global,
    program: &Program,
    tests: &[Test],
    bounds: &Bounds,
    space: &Space,
    cost: u32,
) -> Result<Option<Patch>, AllocError>
    requires { IsSearchable program.now space.now }
    ensures { IfOk result (λ found. MatchOption found (NoRepairOfCost program.now tests.now bounds.now space.now cost) (IsRepairOfCost program.now tests.now bounds.now space.now cost)) }
{
    // what the space lists are patches, and those whose constants are `int`s are all
    costed_is_patch();
    constants_are_ints();
    let mut patches = space.patches_of_cost(alloc, cost, i32::MAX)?;
    match first_repair(alloc, program, tests, bounds, space, patches.as_slice())? {
        None => Ok(None),
        Some(at) => {
            let patch = patches.remove(at);
            Ok(Some(patch))
        }
    }
}

/// The first repair of the least cost.
pub fn least_repair(
    alloc: Global,
    program: &Program,
    tests: &[Test],
    bounds: &Bounds,
    space: &Space,
) -> Result<Option<Found>, AllocError>
    requires { IsSearchable program.now space.now }
    ensures { IfOk result (λ found. MatchOption found (NoRepair program.now tests.now bounds.now space.now) (λ it. IsLeastRepair program.now tests.now bounds.now space.now it.patch it.cost)) }
{
    // each patch has a cost
    cost_exists();
    let most = space.most();
    for cost in 0..=most {
        if let Some(patch) = repair_of_cost(alloc, program, tests, bounds, space, cost)? {
            return Ok(Some(Found { patch, cost }));
        }
    }
    Ok(None)
}
