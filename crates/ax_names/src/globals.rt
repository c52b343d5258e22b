//! Globals (C11 6.7.9, 6.9.2).
ghost use Rattle.std.specs.Prelude.{◌≡◌, OnOk};
ghost use Rattle.ax_names_declared.specs.Cells.{measured};
ghost use Rattle.ax_names_rules.specs.Declarations.{with_global};
ghost use Rattle.ax_names_rules.specs.StatementWalk.{global_of as global_by_rules, globals_of as globals_by_rules};
ghost use Rattle.ax_names_given.specs.Made.{IsFound};
ghost use Rattle.ax_names.specs.Answers.{IsDone, typed_global};

use crate::beside::{again, beside};
use crate::declarations::type_of;
use crate::initials::global_initial;
use ax_names_given::Stop;
use ax_names_given::states::add_var;
use ax_names_rules::State;
use ax_parse_grammar::tree::{Base, Declared};
use ax_prog::{Init, Ty};
use std::alloc::{AllocError, Global};

// The type of a global, and what it begins with.
fn typed(
    alloc: Global,
    cells: &[u32],
    base: &Base,
    d: &Declared,
    st: &State,
) -> Result<(Ty, Init), Stop>
    requires measured { cells.now ≡ measured st.now.structs }
    ensures found { IsFound (typed_global base.now d.now st.now) result }
{
    let ty = type_of(alloc, cells, st, base, d)?;
    let init = global_initial(alloc, &ty, d.declarator.span, &d.initialiser)?;
    Ok((ty, init))
}

// Enters a global, which begins with this.
fn add_global(
    alloc: Global,
    st: &mut State,
    name: &[u8],
    ty: Ty,
    init: Init,
) -> Result<(), AllocError>
    ensures { OnOk result (st.new ≡ with_global st.old name.now ty init) }
{
    let id = add_var(alloc, st, name, ty)?;
    st.globals.push((id, init))
}

// Its name is judged beside its type and what the global begins with.
fn global_of(
    alloc: Global,
    cells: &[u32],
    base: &Base,
    d: &Declared,
    st: &mut State,
) -> Result<(), Stop>
    requires measured { cells.now ≡ measured st.old.structs }
    ensures done { IsDone (global_by_rules base.now d.now st.old) result st.new }
{
    let name = &d.declarator.name;
    let fault = again(0, st, name);
    let (ty, init) = beside(fault, typed(alloc, cells, base, d, st))?;
    Ok(add_global(alloc, st, name.text.as_slice(), ty, init)?)
}

/// Enters the globals of a declaration in turn, or answers the first rule that they break. `cells` are the numbers of cells of
/// the structs.
pub fn globals_of(
    alloc: Global,
    cells: &[u32],
    base: &Base,
    items: &[Declared],
    st: &mut State,
) -> Result<(), Stop>
    requires measured { cells.now ≡ measured st.old.structs }
    ensures done { IsDone (globals_by_rules base.now items.now st.old) result st.new }
    ensures structs { OnOk result (st.new.structs ≡ st.old.structs) }
{
    for d in items {
        global_of(alloc, cells, base, d, st)?;
    }
    Ok(())
}
