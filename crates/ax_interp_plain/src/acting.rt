//! Statements that are one act, and what follows a statement or a call.
ghost use Rattle.std.specs.Prelude.{◌≡◌, None, IfOk};
ghost use Rattle.ax_meaning.specs.declared.State.{State};
ghost use Rattle.ax_meaning.specs.Acts.{assign as assign_act, declare as declare_act, change as change_act, bump as bump_act, read as read_act, print as print_act, give as give_act, keep as keep_act, from_call};
ghost use Rattle.ax_meaning.specs.Execution.{Outcome, ends, after, after_body, after_call, one_act, returns as returns_by, return_outcome, Caller};
ghost use Rattle.ax_interp_acts.specs.Gives.{got_by};
ghost use Rattle.ax_interp_acts.specs.Sources.{source_of};
ghost use Rattle.ax_interp_plain.specs.Completions.{ending_of, with_turn, setting_of, purpose_of};

use crate::completion::{Completion, Plain, Purpose};
use ax_interp_acts::assigning::{assign, bump, change, give, keep, read};
use ax_interp_acts::declaring::declare;
use ax_interp_acts::printing::print;
use ax_interp_acts::sources::Source;
use ax_interp_acts::steps::begin_step;
use ax_meaning::{Cell, State, Stop};
use ax_prog::{Bin, Init, Lval, SlotId, VarId};
use std::alloc::AllocError;

/// How a statement ends that is one act.
fn acted(got: Result<(), Stop>) -> Completion
    ensures { (st : State) → ends (ending_of result) st ≡ one_act (got_by got st) }
{
    match got {
        Ok(()) => Completion::Next,
        Err(stop) => Completion::Stopped(stop),
    }
}

/// How a `return` ends.
fn returned(got: Result<Cell, Stop>) -> Completion
    ensures { (st : State) → ends (ending_of result) st ≡ returns_by (got_by got st) }
{
    match got {
        Ok(cell) => Completion::Returned(Some(cell)),
        Err(stop) => Completion::Stopped(stop),
    }
}

pub fn assigns(place: &Lval, source: Source, plain: &Plain, state: &mut State) -> Completion
    ensures { ends (ending_of result) state.new ≡ one_act (assign_act (setting_of plain.now) place.now (source_of (setting_of plain.now) source.entry) state.old) }
{
    acted(assign(place, source, &plain.layout, plain.steps, state))
}

/// A declaration whose initialiser isn't a call.
pub fn declares(
    id: VarId,
    init: &Init,
    plain: &Plain,
    state: &mut State,
) -> Result<Completion, AllocError>
    ensures { IfOk result (λ end. ends (ending_of end) state.new ≡ one_act (declare_act (setting_of plain.now) id init.now state.old)) }
{
    let got = declare(plain.alloc, id, init, &plain.layout, plain.steps, state)?;
    Ok(acted(got))
}

pub fn changes(place: &Lval, op: Bin, id: SlotId, plain: &Plain, state: &mut State) -> Completion
    ensures { ends (ending_of result) state.new ≡ one_act (change_act (setting_of plain.now) place.now op id state.old) }
{
    acted(change(place, op, id, &plain.layout, plain.steps, state))
}

pub fn bumps(place: &Lval, up: bool, plain: &Plain, state: &mut State) -> Completion
    ensures { ends (ending_of result) state.new ≡ one_act (bump_act (setting_of plain.now) place.now up state.old) }
{
    acted(bump(place, up, &plain.layout, plain.steps, state))
}

pub fn reads(place: &Lval, plain: &Plain, state: &mut State) -> Completion
    ensures { ends (ending_of result) state.new ≡ one_act (read_act (setting_of plain.now) place.now state.old) }
{
    acted(read(place, &plain.layout, plain.steps, state))
}

pub fn prints(id: SlotId, plain: &Plain, state: &mut State) -> Result<Completion, AllocError>
    ensures { IfOk result (λ end. ends (ending_of end) state.new ≡ one_act (print_act (setting_of plain.now) id state.old)) }
{
    let got = print(id, &plain.layout, plain.steps, state)?;
    Ok(acted(got))
}

/// A `return` with a value.
pub fn gives(source: Source, plain: &Plain, state: &mut State) -> Completion
    ensures { ends (ending_of result) state.new ≡ returns_by (give_act (setting_of plain.now) (source_of (setting_of plain.now) source.entry) state.old) }
{
    returned(give(source, &plain.layout, plain.steps, state))
}

/// A `return` without a value.
pub fn gives_none(plain: &Plain, state: &mut State) -> Completion
    ensures { (call : Caller) → ends (ending_of result) state.new ≡ return_outcome (setting_of plain.now) call None state.old }
{
    match begin_step(plain.steps, state) {
        Err(stop) => Completion::Stopped(stop),
        Ok(()) => Completion::Returned(None),
    }
}

/// How a list of statements ends where this one leaves it: `None` where the next one follows.
pub fn leaves(end: Completion) -> Option<Completion>
    ensures { (st : State) → (go : State → Outcome) → with_turn result st go ≡ after (ending_of end) st go }
{
    match end {
        Completion::Next => None,
        Completion::Broke => Some(Completion::Broke),
        Completion::Continued => Some(Completion::Continued),
        Completion::Returned(v) => Some(Completion::Returned(v)),
        Completion::Stopped(stop) => Some(Completion::Stopped(stop)),
        Completion::Unfinished => Some(Completion::Unfinished),
    }
}

/// How a loop ends where its body leaves it: `None` where the loop goes on.
pub fn leaves_loop(end: Completion) -> Option<Completion>
    ensures { (st : State) → (go : State → Outcome) → with_turn result st go ≡ after_body (ending_of end) st go }
{
    match end {
        Completion::Next => None,
        Completion::Continued => None,
        Completion::Broke => Some(Completion::Next),
        Completion::Returned(v) => Some(Completion::Returned(v)),
        Completion::Stopped(stop) => Some(Completion::Stopped(stop)),
        Completion::Unfinished => Some(Completion::Unfinished),
    }
}

fn use_value(value: Option<Cell>, purpose: Purpose, plain: &Plain, state: &mut State) -> Completion
    ensures { ends (ending_of result) state.new ≡ purpose_of (setting_of plain.now) purpose.entry value state.old }
{
    match purpose {
        Purpose::Nothing => Completion::Next,
        Purpose::Assign(place) => assigns(place, Source::Call(value), plain, state),
        Purpose::Keep(id) => acted(keep(id, Source::Call(value), &plain.layout, state)),
        Purpose::Give => gives(Source::Call(value), plain, state),
    }
}

/// What follows a call that ended so.
pub fn after_called(
    end: Completion,
    purpose: Purpose,
    plain: &Plain,
    state: &mut State,
) -> Completion
    ensures { ends (ending_of result) state.new ≡ after_call (ending_of end) state.old (purpose_of (setting_of plain.now) purpose.entry) }
{
    match end {
        Completion::Next => use_value(None, purpose, plain, state),
        Completion::Continued => use_value(None, purpose, plain, state),
        Completion::Broke => use_value(None, purpose, plain, state),
        Completion::Returned(v) => use_value(v, purpose, plain, state),
        Completion::Stopped(stop) => Completion::Stopped(stop),
        Completion::Unfinished => Completion::Unfinished,
    }
}
