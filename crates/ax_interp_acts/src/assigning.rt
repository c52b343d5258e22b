//! Acts that store a value: assignments, compound assignments, `++` and `--`, and reads of inputs (C11 6.5.16, 6.5.2.4,
//! 7.21.6.4).
ghost use Rattle.std.specs.Prelude.{◌≡◌, ◌∷◌, [], ℕ, Ok, MatchOption};
ghost use Rattle.ax_meaning.specs.Answer.{with_value};
ghost use Rattle.ax_meaning.specs.Acts.{assign as assign_act, keep as keep_act, give as give_act, changed_cell, change as change_act, bump as bump_act, bump_by, read as read_act, take_input as take_act};
ghost use Rattle.ax_meaning.specs.Runs.{plain_setting};
ghost use Rattle.ax_interp_acts.specs.Gives.{got_by};
ghost use Rattle.ax_interp_acts.specs.Sources.{source_of};

use crate::sources::Source;
use crate::steps::{begin_step, put, slot_value, stopped};
use ax_interp_values::layout::Layout;
use ax_interp_values::operators::strict;
use ax_interp_values::pointers::{backward, forward};
use ax_interp_values::store::{named, stored_at};
use ax_interp_values::values::{place_at, pointer};
use ax_meaning::{Cell, Place, Pointer, State, Stop, Why};
use ax_prog::{Bin, Lval, SlotId, VarId};
use sqlite_items::Items;

fn slot_cell(id: SlotId, layout: &Layout, state: &mut State) -> Result<Cell, Stop>
    ensures { (steps : ℕ) → got_by result state.new ≡ source_of (plain_setting layout.now.program.now steps) (Source.Int id) state.old }
{
    let n = slot_value(id, layout, state)?;
    Ok(Cell::Int(n))
}

/// The value from a source.
pub fn source_value(source: Source, layout: &Layout, state: &mut State) -> Result<Cell, Stop>
    ensures { (steps : ℕ) → got_by result state.new ≡ source_of (plain_setting layout.now.program.now steps) source.entry state.old }
{
    match source {
        Source::Int(id) => slot_cell(id, layout, state),
        Source::Ptr(q) => match pointer(q, layout, &state.store) {
            Err(why) => Err(Stop::Undefined(why)),
            Ok(p) => Ok(Cell::Ptr(p)),
        },
        Source::Call(None) => Err(Stop::Undefined(Why::NoValue)),
        Source::Call(Some(cell)) => Ok(cell),
    }
}

/// An assignment: the place, then the value, then the write.
pub fn assign(
    place: &Lval,
    source: Source,
    layout: &Layout,
    steps: u32,
    state: &mut State,
) -> Result<(), Stop>
    ensures { got_by result state.new ≡ assign_act (plain_setting layout.now.program.now steps) place.now (source_of (plain_setting layout.now.program.now steps) source.entry) state.old }
{
    begin_step(steps, state)?;
    let target = stopped(place_at(place, layout, &state.store))?;
    let stored = source_value(source, layout, state)?;
    put(target, stored, state)
}

/// The value of a variable whose object has begun.
pub fn keep(id: VarId, source: Source, layout: &Layout, state: &mut State) -> Result<(), Stop>
    ensures { (steps : ℕ) → got_by result state.new ≡ keep_act (plain_setting layout.now.program.now steps) id (source_of (plain_setting layout.now.program.now steps) source.entry) state.old }
{
    let at = stopped(named(&state.store, id))?;
    let cell = source_value(source, layout, state)?;
    put(at, cell, state)
}

/// The step of a `return`, and its value.
pub fn give(source: Source, layout: &Layout, steps: u32, state: &mut State) -> Result<Cell, Stop>
    ensures { got_by result state.new ≡ give_act (plain_setting layout.now.program.now steps) (source_of (plain_setting layout.now.program.now steps) source.entry) state.old }
{
    begin_step(steps, state)?;
    source_value(source, layout, state)
}

fn changed_int(op: Bin, a: i32, n: i32) -> Result<Cell, Why>
    ensures { result ≡ changed_cell op (Cell.Int a) n }
{
    match strict(op, a, n) {
        Err(why) => Err(why),
        Ok(z) => Ok(Cell::Int(z)),
    }
}

fn moved_cell(answer: Result<Pointer, Why>) -> Result<Cell, Why>
    ensures { result ≡ with_value (λ q. Ok (Cell.Ptr q)) answer }
{
    match answer {
        Err(why) => Err(why),
        Ok(q) => Ok(Cell::Ptr(q)),
    }
}

fn changed(op: Bin, cell: Cell, n: i32) -> Result<Cell, Why>
    ensures { result ≡ changed_cell op cell n }
{
    match cell {
        Cell::Empty => Err(Why::Uninit),
        Cell::Int(a) => changed_int(op, a, n),
        Cell::Ptr(q) => match op {
            Bin::Add => moved_cell(forward(q, n)),
            Bin::Sub => moved_cell(backward(q, n)),
            Bin::Eq
            | Bin::Ne
            | Bin::Lt
            | Bin::Le
            | Bin::Gt
            | Bin::Ge
            | Bin::And
            | Bin::Or
            | Bin::Mul
            | Bin::Div
            | Bin::Rem
            | Bin::BitAnd
            | Bin::BitOr
            | Bin::BitXor
            | Bin::Shl
            | Bin::Shr => Err(Why::NoValue),
        },
    }
}

/// A compound assignment: the place once, what is stored there, the other operand, the write.
pub fn change(
    place: &Lval,
    op: Bin,
    id: SlotId,
    layout: &Layout,
    steps: u32,
    state: &mut State,
) -> Result<(), Stop>
    ensures { got_by result state.new ≡ change_act (plain_setting layout.now.program.now steps) place.now op id state.old }
{
    begin_step(steps, state)?;
    let at = stopped(place_at(place, layout, &state.store))?;
    let old = stopped(stored_at(&state.store, at))?;
    let n = slot_value(id, layout, state)?;
    let cell = stopped(changed(op, old, n))?;
    put(at, cell, state)
}

fn bump_op(up: bool) -> Bin
    ensures { result ≡ bump_by up }
{
    if up { Bin::Add } else { Bin::Sub }
}

/// `lv++`, or `lv--` where not `up`.
pub fn bump(
    place: &Lval,
    up: bool,
    layout: &Layout,
    steps: u32,
    state: &mut State,
) -> Result<(), Stop>
    ensures { got_by result state.new ≡ bump_act (plain_setting layout.now.program.now steps) place.now up state.old }
{
    begin_step(steps, state)?;
    let at = stopped(place_at(place, layout, &state.store))?;
    let old = stopped(stored_at(&state.store, at))?;
    let cell = stopped(changed(bump_op(up), old, 1))?;
    put(at, cell, state)
}

fn next_input(inputs: &mut Items<i32>) -> Option<i32>
    ensures { MatchOption result ((inputs.old ≡ []) × (inputs.new ≡ [])) (λ n. inputs.old ≡ n ∷ inputs.new) }
{
    if inputs.is_empty() {
        None
    } else {
        Some(inputs.remove(0))
    }
}

fn take_input(at: Place, state: &mut State) -> Result<(), Stop>
    ensures { got_by result state.new ≡ take_act at state.old.inputs state.old }
{
    match next_input(&mut state.inputs) {
        None => Err(Stop::Undefined(Why::NoInput)),
        Some(n) => put(at, Cell::Int(n), state),
    }
}

/// `scanf("%d", &lv)`: the place, then the next input.
pub fn read(place: &Lval, layout: &Layout, steps: u32, state: &mut State) -> Result<(), Stop>
    ensures { got_by result state.new ≡ read_act (plain_setting layout.now.program.now steps) place.now state.old }
{
    begin_step(steps, state)?;
    let at = stopped(place_at(place, layout, &state.store))?;
    take_input(at, state)
}
