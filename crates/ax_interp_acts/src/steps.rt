//! Steps, the values of slots, and writes.
ghost use Rattle.std.specs.Prelude.{◌≡◌, ℕ, slice_get};
ghost use Rattle.ax_prog.specs.declared.Program.{Program};
ghost use Rattle.ax_meaning.specs.declared.State.{State};
ghost use Rattle.ax_meaning.specs.Acts.{step, one_more, got_answer, slot_value as slot_value_of, put as put_at};
ghost use Rattle.ax_meaning.specs.Runs.{plain_setting};
ghost use Rattle.ax_interp_acts.specs.Gives.{got_by};

use ax_interp_values::layout::Layout;
use ax_interp_values::store::write;
use ax_interp_values::values::value;
use ax_meaning::{Cell, Place, State, Stop, Why};
use ax_prog::SlotId;
use sqlite_items::Items;

/// Begins a step, unless all are used.
pub fn begin_step(steps: u32, state: &mut State) -> Result<(), Stop>
    ensures { (program : Program) → got_by result state.new ≡ step (plain_setting program steps) state.old }
{
    if state.used < steps {
        state.used += 1;
        Ok(())
    } else {
        Err(Stop::OutOfSteps)
    }
}

/// One more evaluation of this slot has begun. The count stands still at the greatest number of 64 bits.
fn count(counts: &mut Items<u64>, at: usize)
    ensures { counts.new ≡ one_more (slice_get counts.old at) counts.old at }
{
    let old = counts.get(at).copied();
    match old {
        None => {}
        Some(n) => counts.set(at, n.saturating_add(1)),
    }
}

/// An answer as that of an act: what is undefined stops the run.
pub fn stopped<T>(answer: Result<T, Why>) -> Result<T, Stop>
    ensures { (st : State) → got_by result st ≡ got_answer answer st }
{
    match answer {
        Ok(it) => Ok(it),
        Err(why) => Err(Stop::Undefined(why)),
    }
}

/// The value of a slot, whose evaluation begins.
pub fn slot_value(id: SlotId, layout: &Layout, state: &mut State) -> Result<i32, Stop>
    ensures { (steps : ℕ) → got_by result state.new ≡ slot_value_of (plain_setting layout.now.program.now steps) id state.old }
{
    count(&mut state.counts, id.0 as usize);
    match layout.program.slots.get(id.0 as usize) {
        None => Err(Stop::Undefined(Why::NoValue)),
        Some(slot) => stopped(value(&slot.expr, layout, &state.store)),
    }
}

/// Stores a cell at a place.
pub fn put(at: Place, cell: Cell, state: &mut State) -> Result<(), Stop>
    ensures { got_by result state.new ≡ put_at at cell state.old }
{
    stopped(write(&mut state.store, at, cell))
}
