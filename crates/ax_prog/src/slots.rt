//! Slots by their numbers.
ghost use Rattle.std.specs.Prelude.{◌≡◌, ◌<◌, length, slice_get, IfOk};
ghost use Rattle.ax_prog.specs.Substitution.{with_tree};

use crate::copy::{copy_atoms, copy_slots};
use crate::{Expr, Slot, SlotId};
use ax_base::gather::{three, two};
use sqlite_items::Items;
use std::alloc::{AllocError, Global};

/// The number as a slot's; past 32 bits it is answered as want of memory, which such a program would need.
pub fn slot_id(at: u64) -> Result<SlotId, AllocError>
    ensures { IfOk result (λ id. id.0 ≡ at) }
{
    if at < 4294967296 {
        Ok(SlotId(at as u32))
    } else {
        Err(AllocError)
    }
}

// A copy of the slot with another tree.
fn replaced(alloc: Global, slot: &Slot, tree: Expr) -> Result<Slot, AllocError>
    ensures { IfOk result (λ it. it ≡ (record slot.now { expr = tree })) }
{
    let scope = Items::from_slice(alloc, slot.scope.as_slice());
    let atoms = copy_atoms(alloc, slot.atoms.as_slice());
    let (expr, scope, atoms) = three(Ok(tree), scope, atoms)?;
    Ok(Slot {
        span: slot.span,
        expr,
        scope,
        atoms,
    })
}

/// A copy of the slots in which one has another tree.
pub fn with_slot_tree(
    alloc: Global,
    slots: &[Slot],
    id: SlotId,
    tree: Expr,
) -> Result<Items<Slot>, AllocError>
    requires { id.0 < length slots.now }
    ensures { IfOk result (λ it. it ≡ with_tree (slice_get slots.now id.0) slots.now id tree) }
{
    let at = id.0 as usize;
    let slot = replaced(alloc, &slots[at], tree);
    let (mut all, slot) = two(copy_slots(alloc, slots), slot)?;
    all.set(at, slot);
    Ok(all)
}
