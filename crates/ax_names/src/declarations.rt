//! Declarations in blocks (C11 6.7).
ghost use Rattle.std.specs.Prelude.{◌≡◌, OnOk};
ghost use Rattle.ax_names_declared.specs.Cells.{measured};
ghost use Rattle.ax_names_declared.specs.Verdicts.{object};
ghost use Rattle.ax_names_rules.specs.StatementWalk.{type_of as type_by_rules, begun as begun_by_rules, var_of as var_by_rules, vars_of as vars_by_rules};
ghost use Rattle.ax_names_given.specs.Made.{IsFound, IsMade};
ghost use Rattle.ax_names.specs.Answers.{variable_of};

use crate::beside::{again, beside};
use crate::initials::initial_of;
use ax_names_declared::{filled, object_type};
use ax_names_given::Stop;
use ax_names_given::states::{add_var, number};
use ax_names_rules::State;
use ax_parse_grammar::tree::{Base, Declarator, Declared, Initialiser, Size};
use ax_prog::copy::copy_ty;
use ax_prog::{Init, Stmt, Ty, VarId};
use sqlite_items::Items;
use std::alloc::Global;

// The type of what a declarator declares, with these sizes.
fn sized(
    alloc: Global,
    cells: &[u32],
    st: &State,
    base: &Base,
    it: &Declarator,
    sizes: &[Size],
) -> Result<Ty, Stop>
    requires measured { cells.now ≡ measured st.now.structs }
    ensures found { IsFound (object st.now.structs (measured st.now.structs) base.now it.now.stars sizes.now it.now.span) result }
{
    match object_type(
        alloc,
        st.structs.as_slice(),
        cells,
        base,
        it.stars,
        sizes,
        it.span,
    )? {
        Ok(ty) => Ok(ty),
        Err(fault) => Err(Stop::Fault(fault)),
    }
}

/// The type of what is declared, or the first rule that its declarator breaks. The structs have these numbers of cells.
pub fn type_of(
    alloc: Global,
    cells: &[u32],
    st: &State,
    base: &Base,
    d: &Declared,
) -> Result<Ty, Stop>
    requires measured { cells.now ≡ measured st.now.structs }
    ensures found { IsFound (type_by_rules st.now base.now d.now) result }
{
    let it = &d.declarator;
    let sizes = it.sizes.as_slice();
    match &d.initialiser {
        Initialiser::List(_, xs) => {
            let sizes = filled(alloc, xs.len(), sizes)?;
            sized(alloc, cells, st, base, it, sizes.as_slice())
        }
        Initialiser::Nothing => sized(alloc, cells, st, base, it, sizes),
        Initialiser::Value(_) => sized(alloc, cells, st, base, it, sizes),
    }
}

// What a variable of this type begins with. It is in scope in its own initialiser (C11 6.2.1p7).
fn begun(
    alloc: Global,
    defs: &[Items<u8>],
    st: &mut State,
    d: &Declared,
    ty: &Ty,
) -> Result<Init, Stop>
    ensures made { IsMade (begun_by_rules defs.now st.old d.now ty.now) result st.new }
{
    let it = &d.declarator;
    let copy = copy_ty(alloc, ty)?;
    add_var(alloc, st, it.name.text.as_slice(), copy)?;
    initial_of(alloc, defs, ty, it.span, &d.initialiser, st)
}

// What a declarator becomes, in the scope that begins behind so many names. Its name is judged beside its type and what the
// variable begins with.
fn var_of(
    alloc: Global,
    defs: &[Items<u8>],
    cells: &[u32],
    floor: usize,
    base: &Base,
    d: &Declared,
    st: &mut State,
) -> Result<Stmt, Stop>
    requires measured { cells.now ≡ measured st.old.structs }
    ensures made { IsMade (var_by_rules defs.now floor base.now d.now st.old) result st.new }
{
    let id = VarId(number(st.vars.len())?);
    let fault = again(floor, st, &d.declarator.name);
    let made = typed(alloc, defs, cells, base, d, st);
    Ok(Stmt::Decl(id, beside(fault, made)?))
}

// The type of a variable, and what it begins with.
fn typed(
    alloc: Global,
    defs: &[Items<u8>],
    cells: &[u32],
    base: &Base,
    d: &Declared,
    st: &mut State,
) -> Result<Init, Stop>
    requires measured { cells.now ≡ measured st.old.structs }
    ensures made { IsMade (variable_of defs.now base.now d.now st.old) result st.new }
{
    let ty = type_of(alloc, cells, st, base, d)?;
    begun(alloc, defs, st, d, &ty)
}

/// What the declarators of a declaration become in turn, in the scope that begins behind so many names, or the first rule
/// that they break (C11 6.7, 6.7.9). `defs` are the names of the functions that the file defines, in order, and `cells` the
/// numbers of cells of the structs.
pub fn vars_of(
    alloc: Global,
    defs: &[Items<u8>],
    cells: &[u32],
    floor: usize,
    base: &Base,
    items: &[Declared],
    st: &mut State,
) -> Result<Items<Stmt>, Stop>
    requires measured { cells.now ≡ measured st.old.structs }
    ensures made { IsMade (vars_by_rules defs.now floor base.now items.now st.old) result st.new }
    ensures structs { OnOk result (st.new.structs ≡ st.old.structs) }
{
    let mut all = Items::new(alloc);
    for d in items {
        let made = var_of(alloc, defs, cells, floor, base, d, st)?;
        all.push(made)?;
    }
    Ok(all)
}
