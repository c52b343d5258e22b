//! What begins and ends a call (C11 6.5.2.2, 6.9.1, 5.1.2.2.3).
ghost use Rattle.std.specs.Prelude.{◌≡◌, IfOk, OnOk};
ghost use Rattle.ax_meaning.specs.Execution.{enter as entered, value_at_end as value_by_end};

use ax_interp_values::store::begin;
use ax_meaning::{Cell, State, Store};
use ax_prog::{FunId, Program, VarId};
use sqlite_items::Items;
use std::alloc::{AllocError, Global};

/// The objects that the variables name.
pub fn copied_names(alloc: Global, store: &Store) -> Result<Items<Option<usize>>, AllocError>
    ensures { IfOk result (λ it. it ≡ store.now.named) }
{
    Items::from_slice(alloc, store.named.as_slice())
}

/// Begins the objects of the parameters with the values of the arguments.
pub fn enter(
    alloc: Global,
    params: &[VarId],
    cells: &[Cell],
    state: &mut State,
) -> Result<(), AllocError>
    ensures { OnOk result (state.new ≡ entered params.now cells.now state.old) }
{
    match params {
        [] => Ok(()),
        [id, more @ ..] => match cells {
            [] => Ok(()),
            [cell, rest @ ..] => {
                let cell = Items::from_slice(alloc, &[*cell])?;
                begin(*id, cell, &mut state.store)?;
                enter(alloc, more, rest, state)
            }
        },
    }
}

/// The value of a call that ends without a `return`: that of `main` has 0, another has none.
pub fn value_at_end(program: &Program, f: FunId) -> Option<Cell>
    ensures { result ≡ value_by_end program.now f.0 }
{
    if f.0 == program.main.0 {
        Some(Cell::Int(0))
    } else {
        None
    }
}
