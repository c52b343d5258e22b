//! The least repair of a program, by trying patches in order of cost, and the source in which it is written.
#![tactic(auto)]

ghost use Rattle.std.specs.Prelude.{◌≡◌, ◌≤◌, false, IfOk};
ghost use Rattle.ax_front.specs.Texts.{IsProgramOfText};
ghost use Rattle.ax_space.specs.Chosen.{AreChosen, space_of};
ghost use Rattle.ax_repair.specs.Outcomes.{IsOutcome};
ghost use Rattle.ax_repair.specs.Written.{OwnTreesStay};

mod least;
mod trying;
mod written;

use ax_front_facts::{slots_fit, slots_lie, slots_rise};
use ax_prog::{Bounds, Program, Sets, SlotId, Suite};
use ax_space::{Patch, Space};
use least::{Found, least_repair};
use sqlite_items::Items;
use std::alloc::{AllocError, Global};
use written::write_source;

/// A repaired source, the patch that it is repaired by, and what the patch costs.
#[derive(Drop)]
pub struct Repaired {
    pub source: Items<u8>,
    pub patch: Patch,
    pub cost: u64,
}

#[derive(Drop)]
pub enum Outcome {
    Repaired(Repaired),
    NoPatch,
}

/// A least repair of the chosen expressions: a patch of their space with whose program every test passes by a run
/// that keeps the bounds, where no such patch costs less. `NoPatch` comes exactly where there is none.
///
/// The written source is `source` with the expression of each chosen slot whose tree changes replaced by the text of
/// its new tree; all other bytes stay.
pub fn repair(
    alloc: Global,
    program: &Program,
    source: &[u8],
    suite: &Suite,
    sets: &Sets,
    bounds: &Bounds,
    chosen: &[SlotId],
) -> Result<Outcome, AllocError>
    requires read { IsProgramOfText source.now program.now }
    requires chosen { AreChosen program.now chosen.now }
    requires no_guard { sets.now.guard ≡ false }
    requires grow { bounds.now.grow ≤ 20 }
    ensures { IfOk result (IsOutcome program.now source.now suite.now.tests bounds.now (space_of program.now chosen.now sets.now bounds.now.grow)) }
{
    // what a text says of its program
    slots_fit();
    slots_lie();
    slots_rise();
    let space = Space::new(alloc, program, chosen, sets, bounds.grow)?;
    match least_repair(alloc, program, suite.tests.as_slice(), bounds, &space)? {
        None => Ok(Outcome::NoPatch),
        Some(found) => {
            let Found { patch, cost } = found;
            let source = write_source(alloc, source, program, chosen, patch.trees.as_slice())?;
            Ok(Outcome::Repaired(Repaired {
                source,
                patch,
                cost: u64::from(cost),
            }))
        }
    }
}

/// Where each chosen expression keeps its tree, the written source is the given one, byte for byte (a law).
pub fn own_trees_stay()
    ensures { OwnTreesStay }
{}
