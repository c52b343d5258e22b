//! Parts of files (C11 6.9): structs, globals, functions and prototypes.
ghost use Rattle.std.specs.Prelude.{◌≡◌, [], IfOk, OnOk};
ghost use Rattle.ax_names_types.specs.declared.TypeKind.TheVariants.{UnknownName};
ghost use Rattle.ax_names_types.specs.Faults.{fault};
ghost use Rattle.ax_names_declared.specs.Cells.{measured};
ghost use Rattle.ax_names_rules.specs.States.{next_var, with_var};
ghost use Rattle.ax_names_rules.specs.Functions.{text_of, with_params as with_these, ids_of};
ghost use Rattle.ax_names_rules.specs.FileWalk.{function_in as function_by_rules, prototype_in as prototype_by_rules, part_of as part_by_rules, parts_of as parts_by_rules};
ghost use Rattle.ax_names.specs.Answers.{IsDone};
ghost use Rattle.ax_names.specs.Structs.{struct_in as struct_by_rules};

use crate::heads::head_in;
use crate::{globals_of, items_of};
use ax_names_declared::{add_struct, struct_type};
use ax_names_given::Stop;
use ax_names_given::states::{add_var, function_at, leave};
use ax_names_rules::State;
use ax_names_types::faults::sooner;
use ax_names_types::{TypeFault, TypeKind};
use ax_parse_grammar::tree::{Head, Members, Name, Param, Part, Stmt};
use ax_prog::copy::copy_ty;
use ax_prog::{Fun, Span, Ty, VarId};
use sqlite_items::Items;
use std::alloc::{AllocError, Global};

fn unknown(at: Span) -> TypeFault
    ensures { result ≡ fault UnknownName at }
{
    TypeFault {
        kind: TypeKind::UnknownName,
        span: at,
    }
}

// ---- functions

// Enters a parameter.
fn push_param(
    alloc: Global,
    st: &mut State,
    name: &Option<Name>,
    ty: Ty,
) -> Result<VarId, AllocError>
    ensures id { IfOk result (λ id. id ≡ next_var st.old) }
    ensures state { OnOk result (st.new ≡ with_var st.old (text_of name.now) ty) }
{
    match name {
        None => add_var(alloc, st, b"".as_slice(), ty),
        Some(name) => add_var(alloc, st, name.text.as_slice(), ty),
    }
}

// Enters the parameters of a function, which are variables of the scope of its body (C11 6.9.1p9).
fn with_params(
    alloc: Global,
    st: &mut State,
    params: &[Param],
    types: &[Ty],
) -> Result<Items<VarId>, AllocError>
    ensures ids { IfOk result (λ ids. ids ≡ ids_of st.old params.now types.now) }
    ensures state { OnOk result (st.new ≡ with_these st.old params.now types.now) }
    ensures structs { OnOk result (st.new.structs ≡ st.old.structs) }
{
    let mut ids = Items::new(alloc);
    for i in 0..params.len().min(types.len()) {
        let ty = copy_ty(alloc, &types[i])?;
        ids.push(push_param(alloc, st, &params[i].name, ty)?)?;
    }
    Ok(ids)
}

// A definition of a function.
fn function_in(
    alloc: Global,
    defs: &[Items<u8>],
    cells: &[u32],
    head: &Head,
    items: &[Stmt],
    st: &mut State,
) -> Result<(), Stop>
    requires measured { cells.now ≡ measured st.old.structs }
    ensures done { IsDone (function_by_rules defs.now head.now items.now st.old) result st.new }
    ensures structs { OnOk result (st.new.structs ≡ st.old.structs) }
{
    let said = head_in(alloc, st, true, head)?;
    let depth = st.names.len();
    let params = with_params(alloc, st, head.params.as_slice(), said.params.as_slice())?;
    let body = items_of(alloc, defs, cells, &said.result, depth, items, st)?;
    leave(st, depth);
    st.funs.push(Fun {
        name: said.name,
        params,
        result: said.result,
        body,
    })?;
    Ok(())
}

// A prototype. Its function is one that the file defines.
fn prototype_in(alloc: Global, defs: &[Items<u8>], head: &Head, st: &mut State) -> Result<(), Stop>
    ensures done { IsDone (prototype_by_rules defs.now head.now st.old) result st.new }
    ensures structs { OnOk result (st.new.structs ≡ st.old.structs) }
{
    let place = function_at(defs, head.name.text.as_slice());
    match head_in(alloc, st, false, head) {
        Ok(_) => match place {
            Some(_) => Ok(()),
            None => Err(Stop::Fault(unknown(head.name.span))),
        },
        Err(Stop::Fault(fault)) => match place {
            Some(_) => Err(Stop::Fault(fault)),
            None => Err(Stop::Fault(sooner(unknown(head.name.span), fault))),
        },
        Err(Stop::Memory) => Err(Stop::Memory),
    }
}

// ---- parts

fn struct_in(
    alloc: Global,
    name: &Name,
    members: &[Members],
    cells: &mut Items<u32>,
    st: &mut State,
) -> Result<(), Stop>
    requires measured { cells.old ≡ measured st.old.structs }
    ensures done { IsDone (struct_by_rules name.now members.now st.old) result st.new }
    ensures cells { OnOk result (cells.new ≡ measured st.new.structs) }
{
    match struct_type(alloc, st.structs.as_slice(), name, members)? {
        Ok(it) => Ok(add_struct(&mut st.structs, cells, it)?),
        Err(fault) => Err(Stop::Fault(fault)),
    }
}

// The structs so far have these numbers of cells, also behind the part.
fn part_of(
    alloc: Global,
    defs: &[Items<u8>],
    part: &Part,
    cells: &mut Items<u32>,
    st: &mut State,
) -> Result<(), Stop>
    requires measured { cells.old ≡ measured st.old.structs }
    ensures done { IsDone (part_by_rules defs.now part.now st.old) result st.new }
    ensures cells { OnOk result (cells.new ≡ measured st.new.structs) }
{
    match part {
        Part::Struct(_, name, members) => struct_in(alloc, name, members.as_slice(), cells, st),
        Part::Decl(d) => globals_of(alloc, cells.as_slice(), &d.base, d.items.as_slice(), st),
        Part::Function(_, head, items) => {
            function_in(alloc, defs, cells.as_slice(), head, items.as_slice(), st)
        }
        Part::Prototype(_, head) => prototype_in(alloc, defs, head, st),
    }
}

/// What a source has said behind its parts. `defs` are the names of the functions that they define, in order.
pub fn parts_of(
    alloc: Global,
    defs: &[Items<u8>],
    parts: &[Part],
    st: &mut State,
) -> Result<(), Stop>
    requires { st.old.structs ≡ [] }
    ensures { IsDone (parts_by_rules defs.now parts.now st.old) result st.new }
{
    let mut cells = Items::new(alloc);
    for part in parts {
        part_of(alloc, defs, part, &mut cells, st)?;
    }
    Ok(())
}
