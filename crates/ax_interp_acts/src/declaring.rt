//! Declarations (C11 6.7.9, 6.8p3). Each takes memory for the cells of its object.
ghost use Rattle.std.specs.Prelude.{◌≡◌, IfOk, OnOk, replicate, slice_get};
ghost use Rattle.ax_meaning.specs.Acts.{declare as declare_act, with_object, blank, listed, cells_of_var as cells_of_variable};
ghost use Rattle.ax_meaning.specs.Runs.{plain_setting};
ghost use Rattle.ax_interp_acts.specs.Gives.{got_by};
ghost use Rattle.ax_interp_acts.specs.Sources.{source_of, declare_from, int_or_zero};

use crate::assigning::keep;
use crate::sources::Source;
use crate::steps::begin_step;
use ax_interp_values::layout::Layout;
use ax_interp_values::store::begin;
use ax_interp_values::types::cells_of_var;
use ax_meaning::{Cell, State, Stop, Why};
use ax_prog::{Init, Value, VarId};
use sqlite_items::Items;
use std::alloc::{AllocError, Global};

fn blank_cells(alloc: Global, count: u32) -> Result<Items<Cell>, AllocError>
    ensures { IfOk result (λ it. it ≡ replicate count Cell.Empty) }
{
    let mut cells = Items::new(alloc);
    for at in 0..count {
        cells.push(Cell::Empty)?;
    }
    Ok(cells)
}

/// So many cells, of these numbers and zeros for the remainder.
pub fn listed_cells(alloc: Global, count: u32, numbers: &[i32]) -> Result<Items<Cell>, AllocError>
    ensures { IfOk result (λ it. it ≡ listed count numbers.now) }
{
    let mut cells = Items::new(alloc);
    for at in 0..count as usize {
        cells.push(Cell::Int(number_at(numbers, at)))?;
    }
    Ok(cells)
}

fn number_at(numbers: &[i32], at: usize) -> i32
    ensures { result ≡ int_or_zero (slice_get numbers.now at) }
{
    match numbers.get(at) {
        None => 0,
        Some(n) => *n,
    }
}

fn var_cells(id: VarId, layout: &Layout) -> u32
    ensures { result ≡ cells_of_variable layout.now.program.now id }
{
    cells_of_var(&layout.sizes, layout.program, id)
}

fn begin_blank(
    alloc: Global,
    id: VarId,
    layout: &Layout,
    state: &mut State,
) -> Result<(), AllocError>
    ensures { OnOk result (state.new ≡ with_object id (blank layout.now.program.now id) state.old) }
{
    let cells = blank_cells(alloc, var_cells(id, layout))?;
    begin(id, cells, &mut state.store)
}

fn begin_listed(
    alloc: Global,
    id: VarId,
    numbers: &[i32],
    layout: &Layout,
    state: &mut State,
) -> Result<(), AllocError>
    ensures { OnOk result (state.new ≡ with_object id (listed (cells_of_variable layout.now.program.now id) numbers.now) state.old) }
{
    let cells = listed_cells(alloc, var_cells(id, layout), numbers)?;
    begin(id, cells, &mut state.store)
}

/// A declaration without an initialiser.
pub fn declare_blank(
    alloc: Global,
    id: VarId,
    layout: &Layout,
    steps: u32,
    state: &mut State,
) -> Result<Result<(), Stop>, AllocError>
    ensures { IfOk result (λ got. got_by got state.new ≡ declare_act (plain_setting layout.now.program.now steps) id Init.Nothing state.old) }
{
    match begin_step(steps, state) {
        Err(stop) => Ok(Err(stop)),
        Ok(()) => {
            begin_blank(alloc, id, layout, state)?;
            Ok(Ok(()))
        }
    }
}

fn declare_listed(
    alloc: Global,
    id: VarId,
    numbers: &Items<i32>,
    layout: &Layout,
    steps: u32,
    state: &mut State,
) -> Result<Result<(), Stop>, AllocError>
    ensures { IfOk result (λ got. got_by got state.new ≡ declare_act (plain_setting layout.now.program.now steps) id (Init.List numbers.now) state.old) }
{
    match begin_step(steps, state) {
        Err(stop) => Ok(Err(stop)),
        Ok(()) => {
            begin_listed(alloc, id, numbers.as_slice(), layout, state)?;
            Ok(Ok(()))
        }
    }
}

fn declare_value(
    alloc: Global,
    id: VarId,
    source: Source,
    layout: &Layout,
    steps: u32,
    state: &mut State,
) -> Result<Result<(), Stop>, AllocError>
    ensures { IfOk result (λ got. got_by got state.new ≡ declare_from (plain_setting layout.now.program.now steps) id (source_of (plain_setting layout.now.program.now steps) source.entry) state.old) }
{
    match begin_step(steps, state) {
        Err(stop) => Ok(Err(stop)),
        Ok(()) => {
            begin_blank(alloc, id, layout, state)?;
            Ok(keep(id, source, layout, state))
        }
    }
}

/// A declaration whose initialiser isn't a call. (A call is the value of a variable that was declared before.)
pub fn declare(
    alloc: Global,
    id: VarId,
    init: &Init,
    layout: &Layout,
    steps: u32,
    state: &mut State,
) -> Result<Result<(), Stop>, AllocError>
    ensures { IfOk result (λ got. got_by got state.new ≡ declare_act (plain_setting layout.now.program.now steps) id init.now state.old) }
{
    match init {
        Init::Nothing => declare_blank(alloc, id, layout, steps, state),
        Init::List(numbers) => declare_listed(alloc, id, numbers, layout, steps, state),
        Init::Value(Value::Int(slot)) => {
            declare_value(alloc, id, Source::Int(*slot), layout, steps, state)
        }
        Init::Value(Value::Ptr(q)) => {
            declare_value(alloc, id, Source::Ptr(q), layout, steps, state)
        }
        Init::Value(Value::Call(_, _)) => Ok(Err(Stop::Undefined(Why::NoValue))),
    }
}
