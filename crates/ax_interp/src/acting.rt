//! Ops but calls: each does to the machine what the definition of its op says.
ghost use Rattle.std.specs.Prelude.{◌≡◌, ◌<◌, IfOk, Some};
ghost use Rattle.ax_meaning.specs.Acts.{assign as assign_act};
ghost use Rattle.ax_interp_acts.specs.Sources.{source_of};
ghost use Rattle.ax_flow.specs.Machine.{act, further as further_by};
ghost use Rattle.ax_interp.specs.Moves.{here_of, move_of, setting_of, given_by};
ghost use Rattle.ax_interp.specs.Gaps.{AllEnded, StillEnded};

use crate::machine::{Context, Finish, Gap, Machine};
use crate::moving::{branched, further, returned};
use ax_flow::{Op, Rhs};
use ax_interp_acts::assigning::{assign, bump, change, give, keep, read};
use ax_interp_acts::calling::value_at_end;
use ax_interp_acts::deciding::{condition, goes_on};
use ax_interp_acts::declaring::declare;
use ax_interp_acts::printing::print;
use ax_interp_acts::sources::Source;
use ax_interp_acts::steps::begin_step;
use ax_interp_values::store::end_var;
use ax_prog::{Bin, Init, Lval, SlotId, VarId};
use sqlite_items::Items;
use std::alloc::AllocError;

/// A declaration.
pub fn declares(
    id: VarId,
    init: &Init,
    context: &Context,
    machine: &mut Machine,
) -> Result<Option<Finish>, AllocError>
    requires { machine.old.place < usize.MAX }
    ensures { IfOk result (λ end. move_of end machine.new ≡ act (setting_of context.now) context.now.flow.now.starts (Some (Op.Decl id init.now)) (here_of machine.old)) }
{
    let got = declare(
        context.alloc,
        id,
        init,
        &context.layout,
        context.steps,
        &mut machine.state,
    )?;
    Ok(further(got, machine))
}

/// The value of the last call becomes that of a variable.
pub fn keeps(id: VarId, context: &Context, machine: &mut Machine) -> Option<Finish>
    requires { machine.old.place < usize.MAX }
    ensures { move_of result machine.new ≡ act (setting_of context.now) context.now.flow.now.starts (Some (Op.Keep id)) (here_of machine.old) }
{
    let source = Source::Call(machine.last);
    let got = keep(id, source, &context.layout, &mut machine.state);
    further(got, machine)
}

/// An assignment.
pub fn assigns(place: &Lval, rhs: &Rhs, context: &Context, machine: &mut Machine) -> Option<Finish>
    requires { machine.old.place < usize.MAX }
    ensures { move_of result machine.new ≡ act (setting_of context.now) context.now.flow.now.starts (Some (Op.Assign place.now rhs.now)) (here_of machine.old) }
{
    match rhs {
        Rhs::Int(id) => assigns_from(place, Source::Int(*id), context, machine),
        Rhs::Ptr(q) => assigns_from(place, Source::Ptr(q), context, machine),
        Rhs::Last => assigns_from(place, Source::Call(machine.last), context, machine),
    }
}

fn assigns_from(
    place: &Lval,
    source: Source,
    context: &Context,
    machine: &mut Machine,
) -> Option<Finish>
    requires { machine.old.place < usize.MAX }
    ensures { move_of result machine.new ≡ further_by (here_of machine.old) (assign_act (setting_of context.now) place.now (source_of (setting_of context.now) source.entry) machine.old.state) }
{
    let got = assign(
        place,
        source,
        &context.layout,
        context.steps,
        &mut machine.state,
    );
    further(got, machine)
}

/// A compound assignment.
pub fn changes(
    place: &Lval,
    op: Bin,
    id: SlotId,
    context: &Context,
    machine: &mut Machine,
) -> Option<Finish>
    requires { machine.old.place < usize.MAX }
    ensures { move_of result machine.new ≡ act (setting_of context.now) context.now.flow.now.starts (Some (Op.Change place.now op id)) (here_of machine.old) }
{
    let got = change(
        place,
        op,
        id,
        &context.layout,
        context.steps,
        &mut machine.state,
    );
    further(got, machine)
}

/// `lv++` or `lv--`.
pub fn bumps(place: &Lval, up: bool, context: &Context, machine: &mut Machine) -> Option<Finish>
    requires { machine.old.place < usize.MAX }
    ensures { move_of result machine.new ≡ act (setting_of context.now) context.now.flow.now.starts (Some (Op.Bump place.now up)) (here_of machine.old) }
{
    let got = bump(
        place,
        up,
        &context.layout,
        context.steps,
        &mut machine.state,
    );
    further(got, machine)
}

/// A `return`.
pub fn returns(
    rhs: &Option<Rhs>,
    context: &Context,
    gaps: &mut Items<Gap>,
    machine: &mut Machine,
) -> Result<Option<Finish>, AllocError>
    requires { AllEnded gaps.old machine.old.state.store.objects }
    ensures next { IfOk result (λ end. move_of end machine.new ≡ act (setting_of context.now) context.now.flow.now.starts (Some (Op.Return rhs.now)) (here_of machine.old)) }
    ensures ended { IfOk result (λ end. StillEnded end gaps.new machine.new) }
{
    match rhs {
        None => returns_none(context, gaps, machine),
        Some(Rhs::Int(id)) => returns_from(Source::Int(*id), context, gaps, machine),
        Some(Rhs::Ptr(q)) => returns_from(Source::Ptr(q), context, gaps, machine),
        Some(Rhs::Last) => returns_from(Source::Call(machine.last), context, gaps, machine),
    }
}

fn returns_none(
    context: &Context,
    gaps: &mut Items<Gap>,
    machine: &mut Machine,
) -> Result<Option<Finish>, AllocError>
    requires { AllEnded gaps.old machine.old.state.store.objects }
    ensures next { IfOk result (λ end. move_of end machine.new ≡ act (setting_of context.now) context.now.flow.now.starts (Some (Op.Return None)) (here_of machine.old)) }
    ensures ended { IfOk result (λ end. StillEnded end gaps.new machine.new) }
{
    match begin_step(context.steps, &mut machine.state) {
        Err(stop) => Ok(Some(Finish::Stopped(stop))),
        Ok(()) => returned(None, gaps, machine),
    }
}

fn returns_from(
    source: Source,
    context: &Context,
    gaps: &mut Items<Gap>,
    machine: &mut Machine,
) -> Result<Option<Finish>, AllocError>
    requires { AllEnded gaps.old machine.old.state.store.objects }
    ensures next { IfOk result (λ end. move_of end machine.new ≡ given_by (setting_of context.now) (source_of (setting_of context.now) source.entry) (here_of machine.old)) }
    ensures ended { IfOk result (λ end. StillEnded end gaps.new machine.new) }
{
    match give(source, &context.layout, context.steps, &mut machine.state) {
        Err(stop) => Ok(Some(Finish::Stopped(stop))),
        Ok(cell) => returned(Some(cell), gaps, machine),
    }
}

/// The end of a function without a `return`.
pub fn falls(
    context: &Context,
    gaps: &mut Items<Gap>,
    machine: &mut Machine,
) -> Result<Option<Finish>, AllocError>
    requires { AllEnded gaps.old machine.old.state.store.objects }
    ensures next { IfOk result (λ end. move_of end machine.new ≡ act (setting_of context.now) context.now.flow.now.starts (Some Op.Fall) (here_of machine.old)) }
    ensures ended { IfOk result (λ end. StillEnded end gaps.new machine.new) }
{
    let value = value_at_end(context.layout.program, machine.running);
    returned(value, gaps, machine)
}

/// A condition.
pub fn tests(id: SlotId, to: usize, context: &Context, machine: &mut Machine) -> Option<Finish>
    requires { machine.old.place < usize.MAX }
    ensures { move_of result machine.new ≡ act (setting_of context.now) context.now.flow.now.starts (Some (Op.Test id to)) (here_of machine.old) }
{
    let got = condition(id, &context.layout, context.steps, &mut machine.state);
    branched(got, to, machine)
}

/// The condition that a `for` leaves out.
pub fn always(context: &Context, machine: &mut Machine) -> Option<Finish>
    requires { machine.old.place < usize.MAX }
    ensures { move_of result machine.new ≡ act (setting_of context.now) context.now.flow.now.starts (Some Op.Always) (here_of machine.old) }
{
    match goes_on(None, &context.layout, context.steps, &mut machine.state) {
        Err(stop) => Some(Finish::Stopped(stop)),
        Ok(_) => {
            machine.place += 1;
            None
        }
    }
}

/// The end of a variable's object.
pub fn ends(id: VarId, context: &Context, machine: &mut Machine) -> Option<Finish>
    requires { machine.old.place < usize.MAX }
    ensures { move_of result machine.new ≡ act (setting_of context.now) context.now.flow.now.starts (Some (Op.End id)) (here_of machine.old) }
{
    end_var(id, &mut machine.state.store);
    machine.place += 1;
    None
}

/// A read of an input.
pub fn reads(place: &Lval, context: &Context, machine: &mut Machine) -> Option<Finish>
    requires { machine.old.place < usize.MAX }
    ensures { move_of result machine.new ≡ act (setting_of context.now) context.now.flow.now.starts (Some (Op.Read place.now)) (here_of machine.old) }
{
    let got = read(place, &context.layout, context.steps, &mut machine.state);
    further(got, machine)
}

/// A print.
pub fn prints(
    id: SlotId,
    context: &Context,
    machine: &mut Machine,
) -> Result<Option<Finish>, AllocError>
    requires { machine.old.place < usize.MAX }
    ensures { IfOk result (λ end. move_of end machine.new ≡ act (setting_of context.now) context.now.flow.now.starts (Some (Op.Print id)) (here_of machine.old)) }
{
    let got = print(id, &context.layout, context.steps, &mut machine.state)?;
    Ok(further(got, machine))
}
