//! The slots of the chosen expressions.
ghost use Rattle.std.specs.Prelude.{◌≡◌, IfOk};
ghost use Rattle.ax_space.specs.Chosen.{AreChosen, slots_of};

use ax_prog::copy::copy_slot;
use ax_prog::{Program, Slot, SlotId};
use sqlite_items::Items;
use std::alloc::{AllocError, Global};

pub fn chosen_slots(
    alloc: Global,
    program: &Program,
    chosen: &[SlotId],
) -> Result<Items<Slot>, AllocError>
    requires { AreChosen program.now chosen.now }
    ensures { IfOk result (λ it. it ≡ slots_of program.now chosen.now) }
{
    let mut slots = Items::new(alloc);
    let all = program.slots.as_slice();
    for id in chosen {
        let slot = copy_slot(alloc, &all[id.0 as usize])?;
        slots.push(slot)?;
    }
    Ok(slots)
}
