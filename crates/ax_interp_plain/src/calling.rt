//! What begins and ends a call (C11 6.5.2.2, 6.9.1, 5.1.2.2.3).
ghost use Rattle.std.specs.Prelude.{◌≡◌, IfOk};
ghost use Rattle.ax_meaning.specs.Execution.{call_ending, value_at_end as value_by_end};
ghost use Rattle.ax_meaning.specs.Acts.{call_args as args_act};
ghost use Rattle.ax_interp_acts.specs.Gives.{got_by};
ghost use Rattle.ax_interp_plain.specs.Completions.{ending_of, setting_of};

use crate::completion::{Completion, Plain};
use ax_interp_acts::calling::value_at_end;
use ax_interp_acts::printing::call_args;
use ax_meaning::{Cell, State, Stop};
use ax_prog::{Arg, FunId};
use sqlite_items::Items;
use std::alloc::AllocError;

/// The step of a call, and the values of its arguments.
pub fn evaluated(
    args: &Items<Arg>,
    plain: &Plain,
    state: &mut State,
) -> Result<Result<Items<Cell>, Stop>, AllocError>
    ensures { IfOk result (λ got. got_by got state.new ≡ args_act (setting_of plain.now) args.now state.old) }
{
    call_args(
        plain.alloc,
        args.as_slice(),
        &plain.layout,
        plain.steps,
        state,
    )
}

/// How a call ends whose body ended so: without a `return`, that of `main` gives 0 and another gives no value.
pub fn call_end(f: FunId, plain: &Plain, end: Completion) -> Completion
    ensures { ending_of result ≡ call_ending (value_by_end plain.now.layout.program.now f.0) (ending_of end) }
{
    match end {
        Completion::Next => Completion::Returned(value_at_end(plain.layout.program, f)),
        Completion::Broke => Completion::Returned(value_at_end(plain.layout.program, f)),
        Completion::Continued => Completion::Returned(value_at_end(plain.layout.program, f)),
        Completion::Returned(v) => Completion::Returned(v),
        Completion::Stopped(stop) => Completion::Stopped(stop),
        Completion::Unfinished => Completion::Unfinished,
    }
}
