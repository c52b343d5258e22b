//! Simple statements, and what stands in the heads of `for` and behind `return`.
ghost use Rattle.std.specs.Prelude.{◌≡◌, ℕ, List};
ghost use Rattle.ax_prog.specs.declared.Span as spot;
ghost use Rattle.ax_names_types.specs.declared.TypeKind.TheVariants.{Misplaced};
ghost use Rattle.ax_names_types.specs.Faults.{fault};
ghost use Rattle.ax_names_declared.specs.Cells.{measured};
ghost use Rattle.ax_names_rules.specs.StatementWalk.{is_changed_by as is_changed, changed_by as changed_by_rules, simple_of as simple_by_rules, opening_of as opening_by_rules, test_of as test_by_rules, step_of as step_by_rules, return_of as return_by_rules, in_loop as in_loop_by_rules};
ghost use Rattle.ax_names_rules.specs.declared.State as now;
ghost use Rattle.ax_parse_grammar.specs.declared.tree.Simple.TheVariants as act;
ghost use Rattle.ax_names_given.specs.Made.{IsFound, IsMade};
ghost use Rattle.ax_names.specs.Answers.{header_of, changed_at, read_by};

use crate::declarations::vars_of;
use ax_names_given::{Stop, call_of, given_for, slot_of, target_of};
use ax_names_rules::State;
use ax_names_types::faults::wrong_type;
use ax_names_types::{TypeFault, TypeKind};
use ax_parse_grammar::tree::{Expr, Opening, Simple, span_of};
use ax_prog::{Bin, Lval, SlotId, Span, Stmt, Ty, Value};
use sqlite_items::{Boxed, Items};
use std::alloc::Global;

// Whether an operator with `=` changes objects of this type: numbers, and pointers by `+` and `-` alone (C11 6.5.16.2p1).
fn is_changed_by(op: Bin, ty: &Ty) -> bool
    ensures { result ≡ is_changed op ty.now }
{
    match ty {
        Ty::Int => true,
        Ty::Ptr(_) => matches!(op, Bin::Add | Bin::Sub),
        Ty::Array(_, _) | Ty::Struct(_) => false,
    }
}

fn changed_by(op: Bin, at: Span, target: (Ty, Lval)) -> Result<Lval, Stop>
    ensures { IsFound (changed_by_rules op at target) result }
{
    let (ty, place) = target;
    if is_changed_by(op, &ty) {
        Ok(place)
    } else {
        Err(Stop::Fault(wrong_type(at)))
    }
}

// The place that an operator with `=` changes.
fn changed(alloc: Global, st: &State, op: Bin, a: &Expr) -> Result<Lval, Stop>
    ensures { IsFound (changed_at op a.now st.now) result }
{
    let target = target_of(alloc, st, a)?;
    changed_by(op, span_of(a), target)
}

fn assign(
    alloc: Global,
    defs: &[Items<u8>],
    at: Span,
    a: &Expr,
    b: &Expr,
    st: &mut State,
) -> Result<Stmt, Stop>
    ensures { IsMade (simple_by_rules defs.now (act.Assign at a.now b.now) st.old) result st.new }
{
    let (ty, place) = target_of(alloc, st, a)?;
    let value = given_for(alloc, defs, &ty, at, st, b)?;
    Ok(Stmt::Assign(place, value))
}

fn change(alloc: Global, a: &Expr, op: Bin, b: &Expr, st: &mut State) -> Result<Stmt, Stop>
    ensures { (defs : List (List ℕ)) (at : spot.Span) → IsMade (simple_by_rules defs (act.Change at a.now op b.now) st.old) result st.new }
{
    let place = changed(alloc, st, op, a)?;
    let id = slot_of(alloc, st, b)?;
    Ok(Stmt::Change(place, op, id))
}

fn call(alloc: Global, defs: &[Items<u8>], a: &Expr, st: &mut State) -> Result<Stmt, Stop>
    ensures { (at : spot.Span) → IsMade (simple_by_rules defs.now (act.Call at a.now) st.old) result st.new }
{
    let (_, (f, args)) = call_of(alloc, defs, st, a)?;
    Ok(Stmt::Call(f, args))
}

/// What a simple statement becomes, or the first rule that it breaks (C11 6.5.16, 6.5.2.2).
pub fn simple_of(
    alloc: Global,
    defs: &[Items<u8>],
    simple: &Simple,
    st: &mut State,
) -> Result<Stmt, Stop>
    ensures { IsMade (simple_by_rules defs.now simple.now st.old) result st.new }
{
    match simple {
        Simple::Assign(at, a, b) => assign(alloc, defs, *at, a, b, st),
        Simple::Change(_, a, op, b) => change(alloc, a, *op, b, st),
        Simple::Step(_, a, up) => Ok(Stmt::Bump(changed(alloc, st, Bin::Add, a)?, *up)),
        Simple::Call(_, a) => call(alloc, defs, a, st),
    }
}

// What the head of a `for` begins with, in the scope of the `for` (C11 6.8.5p5).
fn opening_of(
    alloc: Global,
    defs: &[Items<u8>],
    cells: &[u32],
    opening: &Opening,
    st: &mut State,
) -> Result<Items<Stmt>, Stop>
    requires measured { cells.now ≡ measured st.old.structs }
    ensures made { IsMade (opening_by_rules defs.now opening.now st.old) result st.new }
{
    match opening {
        Opening::Nothing => Ok(Items::new(alloc)),
        Opening::Simple(x) => {
            let made = simple_of(alloc, defs, x, st)?;
            let mut all = Items::new(alloc);
            all.push(made)?;
            Ok(all)
        }
        Opening::Decl(d) => {
            let floor = st.names.len();
            vars_of(alloc, defs, cells, floor, &d.base, d.items.as_slice(), st)
        }
    }
}

// The condition in the head of a `for`, if there is one.
fn test_of(alloc: Global, test: &Option<Expr>, st: &mut State) -> Result<Option<SlotId>, Stop>
    ensures { IsMade (test_by_rules test.now st.old) result st.new }
{
    match test {
        None => Ok(None),
        Some(a) => Ok(Some(slot_of(alloc, st, a)?)),
    }
}

// The step in the head of a `for`, if there is one.
fn step_of(
    alloc: Global,
    defs: &[Items<u8>],
    step: &Option<Simple>,
    st: &mut State,
) -> Result<Option<Boxed<Stmt>>, Stop>
    ensures { IsMade (step_by_rules defs.now step.now st.old) result st.new }
{
    match step {
        None => Ok(None),
        Some(x) => {
            let made = simple_of(alloc, defs, x, st)?;
            Ok(Some(Boxed::new(alloc, made)?))
        }
    }
}

/// What stands in the head of a `for`: its opening, its condition and its step.
pub type Header = (Items<Stmt>, (Option<SlotId>, Option<Boxed<Stmt>>));

/// The head of a `for`.
pub fn header(
    alloc: Global,
    defs: &[Items<u8>],
    cells: &[u32],
    opening: &Opening,
    test: &Option<Expr>,
    step: &Option<Simple>,
    st: &mut State,
) -> Result<Header, Stop>
    requires measured { cells.now ≡ measured st.old.structs }
    ensures made { IsMade (header_of defs.now opening.now test.now step.now st.old) result st.new }
{
    let opening = opening_of(alloc, defs, cells, opening, st)?;
    let test = test_of(alloc, test, st)?;
    let step = step_of(alloc, defs, step, st)?;
    Ok((opening, (test, step)))
}

/// The value behind `return`, in a function whose value has this type (C11 6.8.6.4p1).
pub fn return_of(
    alloc: Global,
    defs: &[Items<u8>],
    ty: &Option<Ty>,
    at: Span,
    a: &Option<Expr>,
    st: &mut State,
) -> Result<Option<Value>, Stop>
    ensures { IsMade (return_by_rules defs.now ty.now at a.now st.old) result st.new }
{
    match ty {
        None => match a {
            None => Ok(None),
            Some(_) => Err(Stop::Fault(wrong_type(at))),
        },
        Some(ty) => match a {
            None => Err(Stop::Fault(wrong_type(at))),
            Some(a) => Ok(Some(given_for(alloc, defs, ty, at, st, a)?)),
        },
    }
}

/// What `scanf` with this target becomes.
pub fn read_of(alloc: Global, a: &Expr, st: &State) -> Result<Stmt, Stop>
    ensures { IsMade (read_by a.now st.now) result st.now }
{
    match target_of(alloc, st, a)? {
        (Ty::Int, place) => Ok(Stmt::Read(place)),
        _ => Err(Stop::Fault(wrong_type(span_of(a)))),
    }
}

/// `break` and `continue` stand in loops alone (C11 6.8.6.2p1, 6.8.6.3p1).
pub fn in_loop(inside: bool, at: Span, made: Stmt) -> Result<Stmt, Stop>
    ensures { (st : now.State) → IsMade (in_loop_by_rules inside at made st) result st }
{
    if inside {
        Ok(made)
    } else {
        Err(Stop::Fault(misplaced(at)))
    }
}

/// The fault of a statement where none of its kind may stand.
pub fn misplaced(at: Span) -> TypeFault
    ensures { result ≡ fault Misplaced at }
{
    TypeFault {
        kind: TypeKind::Misplaced,
        span: at,
    }
}
