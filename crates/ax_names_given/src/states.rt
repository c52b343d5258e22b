//! What a source has said so far, as code: names in scope, variables, slots, and functions by name.
ghost use Rattle.std.specs.Prelude.{◌≡◌, is_some, IfOk, OnOk};
ghost use Rattle.ax_names_types.specs.Scopes.{innermost as innermost_of};
ghost use Rattle.ax_names_rules.specs.States.{next_var, with_var, next_slot, with_slot, int_var as int_var_of, visible as visible_of, leaving};
ghost use Rattle.ax_names_rules.specs.Values.{function_at as function_in};
ghost use Rattle.ax_names_given.specs.Scope.{shown_by};

use ax_names_rules::State;
use ax_names_types::{Entity, Entry};
use ax_parse_grammar::tree::{Expr, span_of};
use ax_prog::copy::copy_ty;
use ax_prog::{Atom, Slot, SlotId, Span, Ty, Var, VarId};
use sqlite_items::Items;
use std::alloc::{AllocError, Global};

/// A number as an id. Want of memory comes long before 2^32 of them.
pub fn number(n: usize) -> Result<u32, AllocError>
    ensures { IfOk result (λ id. id ≡ n) }
{
    if n < 4294967296 {
        Ok(n as u32)
    } else {
        Err(AllocError)
    }
}

/// Whether a name is declared among these.
#[tactic(auto, using(crate::proofs::Steps::declaring))]
pub fn is_declared(name: &[u8], names: &[Entry]) -> bool
    ensures { result ≡ is_some (innermost_of name.now names.now) }
{
    for entry in names {
        if entry.name.as_slice() == name {
            return true;
        }
    }
    false
}

/// Enters a variable, which is in scope from here on (C11 6.2.1p7). Where memory is wanting, the lists may have grown.
pub fn add_var(alloc: Global, st: &mut State, name: &[u8], ty: Ty) -> Result<VarId, AllocError>
    ensures id { IfOk result (λ id. id ≡ next_var st.old) }
    ensures state { OnOk result (st.new ≡ with_var st.old name.now ty) }
{
    let id = VarId(number(st.vars.len())?);
    let text = Items::from_slice(alloc, name)?;
    let again = Items::from_slice(alloc, name)?;
    let copy = copy_ty(alloc, &ty)?;
    st.vars.push(Var {
        name: text,
        ty: copy,
    })?;
    st.names.push(Entry {
        name: again,
        entity: Entity::Variable(id, ty),
    })?;
    Ok(id)
}

/// Ends the scopes of all names behind the first so many (C11 6.2.1p4).
pub fn leave(st: &mut State, depth: usize)
    ensures { st.new ≡ leaving depth st.old }
{
    while st.names.len() > depth {
        st.names.pop();
    }
}

fn int_var(entity: &Entity) -> Option<VarId>
    ensures { result ≡ int_var_of entity.now }
{
    match entity {
        Entity::Variable(id, Ty::Int) => Some(*id),
        _ => None,
    }
}

// The variable of type `int` that an entry is, unless one of the inner names hides it.
fn shown(entry: &Entry, inner: &[Entry]) -> Option<VarId>
    ensures { result ≡ shown_by entry.now inner.now }
{
    let id = int_var(&entry.entity)?;
    if is_declared(entry.name.as_slice(), inner) {
        None
    } else {
        Some(id)
    }
}

// The variables of type `int` that no inner name hides (C11 6.2.1p4), in order of declaration.
fn visible(alloc: Global, names: &[Entry]) -> Result<Items<VarId>, AllocError>
    ensures { IfOk result (λ ids. ids ≡ visible_of names.now) }
{
    let mut ids = Items::new(alloc);
    let mut rest = names;
    while let [entry, inner @ ..] = rest {
        if let Some(id) = shown(entry, inner) {
            ids.push(id)?;
        }
        rest = inner;
    }
    Ok(ids)
}

/// Enters a slot for an expression that is this number.
pub fn add_slot(
    alloc: Global,
    st: &mut State,
    a: &Expr,
    expr: ax_prog::Expr,
    atoms: Items<(Atom, Span)>,
) -> Result<SlotId, AllocError>
    ensures id { IfOk result (λ id. id ≡ next_slot st.old) }
    ensures state { OnOk result (st.new ≡ with_slot st.old a.now expr atoms) }
{
    let id = SlotId(number(st.slots.len())?);
    let scope = visible(alloc, st.names.as_slice())?;
    st.slots.push(Slot {
        span: span_of(a),
        expr,
        scope,
        atoms,
    })?;
    Ok(id)
}

/// The place of the function of this name among those that the file defines.
pub fn function_at(defs: &[Items<u8>], name: &[u8]) -> Option<usize>
    ensures { result ≡ function_in defs.now name.now }
{
    defs.iter().position(|other| other.as_slice() == name)
}
