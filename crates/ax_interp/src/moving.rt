//! Where a run goes on after an act.
ghost use Rattle.std.specs.Prelude.{◌≡◌, ◌<◌, ◌+◌, if◌then◌else◌, IfOk, OnOk};
ghost use Rattle.ax_interp_acts.specs.Gives.{got_by};
ghost use Rattle.ax_flow.specs.Machine.{goes_to, moves, further as further_by, returned as returned_to};
ghost use Rattle.ax_interp.specs.Moves.{calls_of, here_of, move_of, given_to};
ghost use Rattle.ax_interp.specs.Gaps.{AllEnded, StillEnded};

use crate::ending::leave;
use crate::machine::{Finish, Gap, Machine};
use ax_flow::Frame;
use ax_meaning::{Cell, Stop};
use sqlite_items::Items;
use std::alloc::AllocError;

/// The next op follows, unless the act stopped the run.
pub fn further(got: Result<(), Stop>, machine: &mut Machine) -> Option<Finish>
    requires { machine.old.place < usize.MAX }
    ensures { move_of result machine.new ≡ further_by (here_of machine.old) (got_by got machine.old.state) }
{
    match got {
        Err(stop) => Some(Finish::Stopped(stop)),
        Ok(()) => {
            machine.place += 1;
            None
        }
    }
}

/// The next op follows where a condition holds, and else the one at that place.
pub fn branched(got: Result<bool, Stop>, to: usize, machine: &mut Machine) -> Option<Finish>
    requires { machine.old.place < usize.MAX }
    ensures { move_of result machine.new ≡ moves (got_by got machine.old.state) (λ holds st. goes_to (if holds then machine.old.place + 1 else to) (here_of machine.old) st) }
{
    match got {
        Err(stop) => Some(Finish::Stopped(stop)),
        Ok(true) => {
            machine.place += 1;
            None
        }
        Ok(false) => {
            machine.place = to;
            None
        }
    }
}

/// The call that runs ends with this value: its objects end, and its caller goes on. That of `main` from which the run began
/// ends the run.
pub fn returned(
    value: Option<Cell>,
    gaps: &mut Items<Gap>,
    machine: &mut Machine,
) -> Result<Option<Finish>, AllocError>
    requires { AllEnded gaps.old machine.old.state.store.objects }
    ensures next { IfOk result (λ end. move_of end machine.new ≡ returned_to (calls_of machine.old).callers value machine.old.state) }
    ensures ended { IfOk result (λ end. StillEnded end gaps.new machine.new) }
{
    match machine.callers.pop() {
        None => Ok(Some(Finish::Returned(value))),
        Some(frame) => {
            go_back(frame, value, gaps, machine)?;
            Ok(None)
        }
    }
}

fn go_back(
    frame: Frame,
    value: Option<Cell>,
    gaps: &mut Items<Gap>,
    machine: &mut Machine,
) -> Result<(), AllocError>
    requires { AllEnded gaps.old machine.old.state.store.objects }
    ensures back { OnOk result (machine.new ≡ given_to frame value machine.old) }
    ensures ended { OnOk result (AllEnded gaps.new machine.new.state.store.objects) }
{
    let Frame {
        fun,
        back,
        objects,
        names,
    } = frame;
    machine.place = back;
    machine.running = fun;
    machine.last = value;
    leave(objects, names, gaps, &mut machine.state.store)
}
