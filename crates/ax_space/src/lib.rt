//! Spaces of patches: which trees may replace chosen expressions, what each costs, and the programs that they give.
//!
//! A space stands for its `Chosen`: the numbers of the chosen slots, those slots, the chosen sets and the growth.
#![tactic(auto)]

ghost use Rattle.std.specs.Prelude.{◌≡◌, ℕ, ◌≤◌, ◌<◌, false, length, slice_get, Some, IfOk};
ghost use Rattle.ax_space.specs.Chosen.{AreChosen, IsSpaceOf, SlotsFit, space_of};
ghost use Rattle.ax_space.specs.Positions.{ArePositionsOf};
ghost use Rattle.ax_space.specs.Patches.{IsPatch, PatchCost, IsPatchesOfCost, patched};

mod choosing;
mod chosen;
mod labels;
pub mod laws;
mod patched;
mod positions;
mod rows;
mod sums;
mod words;

use ax_prog::{Bin, Expr, Program, Sets, Slot, SlotId, Un};
use ax_space_trees::Label;
pub use choosing::are_chosen;
use chosen::chosen_slots;
use patched::put_trees;
use positions::slot_positions;
use rows::{Within, patches, rows};
use sqlite_items::Items;
use std::alloc::{AllocError, Global};
use std::marker::Model;
use sums::{room, sum_of_changes};

/// A tree for each chosen expression of a space, in their order.
#[derive(Drop)]
pub struct Patch {
    pub trees: Items<Expr>,
}

/// What a position may be: one label, or any number from 0 on, its `Const`.
#[derive(Drop)]
pub enum Mark {
    Label(Label),
    Const,
}

/// A position of a chosen expression's space: a word over the numbers of operands, from 1. `old` says that the old
/// tree has a node there, whose label is then the first.
#[derive(Drop)]
pub struct Position {
    pub word: Items<u8>,
    pub labels: Items<Mark>,
    pub old: bool,
}

/// A tree for each of some slots, with the cost of all.
#[derive(Drop)]
struct Row {
    trees: Items<Expr>,
    cost: u32,
}

/// An operator on `int`.
#[derive(Clone, Copy, PartialEq, Eq, Debug)]
enum Operator {
    Unary(Un),
    Binary(Bin),
}

/// The trees that may replace the chosen expressions of a program.
#[derive(Drop)]
pub struct Space {
    chosen: Items<SlotId>,
    slots: Items<Slot>,
    sets: Sets,
    grow: u32,
}

impl Model for Space {
    ghost use Rattle.ax_space.specs.Chosen.{Chosen};
    ghost use Rattle.std.specs.Coded.{codes};
    ghost use Rattle.ax_prog.specs.contracts.Slot as slot;

    ghost Value = { Chosen };

    ghost coded = { Prim.hlevel (codes, slot.the_row.coded) };

    ghost use Rattle.ax_space.specs.Chosen.{AreBounded};

    ghost view = { λ s. record { ids = s.chosen; slots = s.slots; sets = s.sets; grow = s.grow } };

    ghost invariant = { λ s. AreBounded s.chosen s.slots s.grow };
}

impl Space {
    /// The space of a program's chosen expressions, with these sets of new labels, where a tree may grow by so many
    /// nodes below each old one.
    ///
    /// The chosen slots are candidates, at most four, in rising order, as `are_chosen` tells. Growth is at most 20, so
    /// that costs are numbers of 32 bits.
    pub fn new(
        alloc: Global,
        program: &Program,
        chosen: &[SlotId],
        sets: &Sets,
        grow: u32,
    ) -> Result<Space, AllocError>
        requires chosen { AreChosen program.now chosen.now }
        requires grow { grow ≤ 20 }
        ensures { IfOk result (λ space. space ≡ space_of program.now chosen.now sets.now grow) }
    {
        let slots = chosen_slots(alloc, program, chosen)?;
        let chosen = Items::from_slice(alloc, chosen)?;
        Ok(Space {
            chosen,
            slots,
            sets: *sets,
            grow,
        })
    }

    /// The chosen slots, in rising order.
    pub fn chosen(&self) -> &[SlotId]
        ensures { result.now ≡ self.now.ids }
    {
        self.chosen.as_slice()
    }

    /// The slot of the chosen expression of that number, from 0, as the program has it.
    pub fn slot(&self, chosen: usize) -> &Slot
        requires { chosen < length self.now.ids }
        ensures { slice_get self.now.slots chosen ≡ Some result.now }
    {
        &self.slots.as_slice()[chosen]
    }

    /// The positions of the chosen expression of that number, from 0: those of its tree, each extended by words over 1
    /// and 2 of at most as many letters as the growth, by length and then by digits, none twice. Each has its labels
    /// in order, none twice: the old one, then those of the chosen sets whose operands have positions.
    pub fn positions(&self, alloc: Global, chosen: usize) -> Result<Items<Position>, AllocError>
        requires { chosen < length self.now.ids }
        ensures { IfOk result (ArePositionsOf self.now chosen) }
    {
        let slot = self.slot(chosen);
        let found = slot_positions(alloc, slot, &self.sets, self.grow)?;
        Ok(found)
    }

    /// A number that no patch costs more than.
    pub fn most(&self) -> u32
        requires { self.now.sets.guard ≡ false }
        ensures { (patch : Patch) → (cost : ℕ) → PatchCost self.now patch cost → cost ≤ result }
    {
        room(self.slots.as_slice(), self.grow)
    }

    /// All patches of that cost whose new constants are at most `limit`, each once.
    ///
    /// A constant is new where the old tree hasn't that number at that position. Guards are not listed yet.
    pub fn patches_of_cost(
        &self,
        alloc: Global,
        cost: u32,
        limit: i32,
    ) -> Result<Items<Patch>, AllocError>
        requires { self.now.sets.guard ≡ false }
        ensures { IfOk result (IsPatchesOfCost self.now cost limit) }
    {
        let within = Within {
            sets: self.sets,
            grow: self.grow,
            budget: cost,
        };
        let rows = rows(alloc, self.slots.as_slice(), &within, limit)?;
        let found = patches(alloc, rows.as_slice(), cost)?;
        Ok(found)
    }
}

impl Patch {
    /// The changed nodes: the positions of the new trees at which the old ones have no node or another label.
    pub fn cost(&self, space: &Space) -> u64
        requires no_guard { space.now.sets.guard ≡ false }
        requires patch { IsPatch space.now self.now }
        ensures { PatchCost space.now self.now result }
    {
        sum_of_changes(space.slots.as_slice(), self.trees.as_slice())
    }
}

/// The patched program: the original with the patch's trees in place of the chosen expressions. All else stays.
///
/// The program's own trees fit their slots, as those of each program that was read from a text do.
pub fn apply(
    alloc: Global,
    program: &Program,
    space: &Space,
    patch: &Patch,
) -> Result<Program, AllocError>
    requires space { IsSpaceOf program.now space.now }
    requires patch { IsPatch space.now patch.now }
    requires fit { SlotsFit program.now.slots }
    ensures { IfOk result (λ it. it ≡ patched program.now space.now.ids patch.now) }
{
    put_trees(alloc, program, space.chosen(), patch.trees.as_slice())
}
