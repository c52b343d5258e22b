//! Conditions (C11 6.8.4.1p2, 6.8.5p4, 6.8.5.3p2).
ghost use Rattle.std.specs.Prelude.{◌≡◌};
ghost use Rattle.ax_prog.specs.declared.Program.{Program};
ghost use Rattle.ax_meaning.specs.Acts.{condition as condition_act, condition_or_true, always as always_act};
ghost use Rattle.ax_meaning.specs.Runs.{plain_setting};
ghost use Rattle.ax_interp_acts.specs.Gives.{got_by};

use crate::steps::{begin_step, slot_value};
use ax_interp_values::layout::Layout;
use ax_interp_values::operators::holds;
use ax_meaning::{State, Stop};
use ax_prog::SlotId;

/// Whether a condition holds.
pub fn condition(id: SlotId, layout: &Layout, steps: u32, state: &mut State) -> Result<bool, Stop>
    ensures { got_by result state.new ≡ condition_act (plain_setting layout.now.program.now steps) id state.old }
{
    begin_step(steps, state)?;
    let n = slot_value(id, layout, state)?;
    Ok(holds(n))
}

fn always(steps: u32, state: &mut State) -> Result<bool, Stop>
    ensures { (program : Program) → got_by result state.new ≡ always_act (plain_setting program steps) state.old }
{
    begin_step(steps, state)?;
    Ok(true)
}

/// Whether a loop goes on: an absent condition of a `for` holds.
pub fn goes_on(
    id: Option<SlotId>,
    layout: &Layout,
    steps: u32,
    state: &mut State,
) -> Result<bool, Stop>
    ensures { got_by result state.new ≡ condition_or_true (plain_setting layout.now.program.now steps) id state.old }
{
    match id {
        None => always(steps, state),
        Some(id) => condition(id, layout, steps, state),
    }
}
