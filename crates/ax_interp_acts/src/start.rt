//! The start of a run: its globals begin without a step (C11 5.1.2p1, 6.7.9p10).
ghost use Rattle.std.specs.Prelude.{◌≡◌, IfOk, None, OnOk, replicate, slice_get};
ghost use Rattle.ax_meaning.specs.Types.{type_of_var};
ghost use Rattle.ax_meaning.specs.Acts.{cells_of_var as cells_of_variable};
ghost use Rattle.ax_meaning.specs.Runs.{zeros as zeros_of, at_start};
ghost use Rattle.ax_interp_acts.specs.Within.{cells_from, entered_from};

use crate::declaring::listed_cells;
use crate::zeros::{struct_zeros, zeros};
use ax_interp_values::layout::Layout;
use ax_interp_values::store::begin;
use ax_interp_values::types::cells_of_var;
use ax_meaning::{Cell, State, Store};
use ax_prog::{Init, Program, VarId};
use sqlite_items::Items;
use std::alloc::{AllocError, Global};

fn zeros_of_var(
    alloc: Global,
    program: &Program,
    structs: &Items<Items<Cell>>,
    id: VarId,
) -> Result<Items<Cell>, AllocError>
    ensures { IfOk result (λ it. it ≡ zeros_of structs.now (type_of_var (slice_get program.now.vars id.0))) }
{
    match program.vars.get(id.0 as usize) {
        None => Items::from_slice(alloc, &[Cell::Int(0)]),
        Some(var) => zeros(alloc, structs, &var.ty),
    }
}

fn var_cells(id: VarId, layout: &Layout) -> u32
    ensures { result ≡ cells_of_variable layout.now.program.now id }
{
    cells_of_var(&layout.sizes, layout.program, id)
}

// What a global starts with, where the structs have these zeros.
fn global_cells(
    alloc: Global,
    layout: &Layout,
    structs: &Items<Items<Cell>>,
    id: VarId,
    init: &Init,
) -> Result<Items<Cell>, AllocError>
    ensures { IfOk result (λ it. it ≡ cells_from structs.now layout.now.program.now id init.now) }
{
    match init {
        Init::List(ns) => listed_cells(alloc, var_cells(id, layout), ns.as_slice()),
        Init::Nothing => zeros_of_var(alloc, layout.program, structs, id),
        Init::Value(_) => zeros_of_var(alloc, layout.program, structs, id),
    }
}

fn enter_globals(
    alloc: Global,
    layout: &Layout,
    structs: &Items<Items<Cell>>,
    state: &mut State,
) -> Result<(), AllocError>
    ensures { OnOk result (state.new ≡ entered_from structs.now layout.now.program.now layout.now.program.now.globals state.old) }
{
    for global in layout.program.globals.as_slice() {
        let cells = global_cells(alloc, layout, structs, global.0, &global.1)?;
        begin(global.0, cells, &mut state.store)?;
    }
    Ok(())
}

fn unnamed(alloc: Global, count: usize) -> Result<Items<Option<usize>>, AllocError>
    ensures { IfOk result (λ it. it ≡ replicate count None) }
{
    let mut all = Items::new(alloc);
    for at in 0..count {
        all.push(None)?;
    }
    Ok(all)
}

fn uncounted(alloc: Global, count: usize) -> Result<Items<u64>, AllocError>
    ensures { IfOk result (λ it. it ≡ replicate count 0) }
{
    let mut all = Items::new(alloc);
    for at in 0..count {
        all.push(0)?;
    }
    Ok(all)
}

/// The state in which `main` is called.
#[tactic(auto, using(crate::proofs::Within::entered_by_marks))]
pub fn start(alloc: Global, layout: &Layout, inputs: &[i32]) -> Result<State, AllocError>
    ensures { IfOk result (λ it. it ≡ at_start layout.now.program.now inputs.now) }
{
    let named = unnamed(alloc, layout.program.vars.len())?;
    let counts = uncounted(alloc, layout.program.slots.len())?;
    let mut state = State {
        store: Store {
            cells: Items::new(alloc),
            objects: Items::new(alloc),
            named,
        },
        inputs: Items::from_slice(alloc, inputs)?,
        output: Items::new(alloc),
        used: 0,
        counts,
        notes: Items::new(alloc),
    };
    let structs = struct_zeros(alloc, layout.program)?;
    enter_globals(alloc, layout, &structs, &mut state)?;
    Ok(state)
}
