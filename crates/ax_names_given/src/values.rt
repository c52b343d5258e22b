//! Numbers, values that are no calls, and targets.
ghost use Rattle.std.specs.Prelude.{◌≡◌};
ghost use Rattle.ax_names_types.specs.declared.TypeKind.TheVariants.{NotLvalue};
ghost use Rattle.ax_names_types.specs.Faults.{fault};
ghost use Rattle.ax_names_types.specs.Types.{is_zero as is_zero_tree};
ghost use Rattle.ax_names_types.specs.Verdicts.{verdict_of};
ghost use Rattle.ax_names_rules.specs.declared.State as now;
ghost use Rattle.ax_names_rules.specs.States.{here};
ghost use Rattle.ax_names_rules.specs.Values.{arg_of as arg_of_value};
ghost use Rattle.ax_names_rules.specs.ValueWalk.{as_number as as_number_at, number_of as number_by, slot_of as slot_by_rules, number_for as number_for_place, pointer_for as pointer_for_place, suited as suited_to, value_for as value_by_rules, args_of as args_by_rules, unless_array as unless_it_is_array, as_target as as_target_at, target_of as target_by_rules};
ghost use Rattle.ax_names_given.specs.Made.{IsFound, IsMade};

use crate::Stop;
use crate::states::add_slot;
use ax_names_rules::State;
use ax_names_types::faults::wrong_type;
use ax_names_types::scopes::is_function;
use ax_names_types::types::same_ty;
use ax_names_types::{TypeFault, TypeKind, Typed};
use ax_names_values::judged;
use ax_names_values::operands::value;
use ax_parse_grammar::tree::{Expr, span_of};
use ax_prog::{Arg, Atom, Lval, Pexpr, SlotId, Span, Ty, Value};
use sqlite_items::Items;
use std::alloc::Global;

// Whether this is the literal 0 (C11 6.3.2.3p3).
fn is_zero(a: &Expr) -> bool
    ensures { result ≡ is_zero_tree a.now }
{
    match a {
        Expr::Number(_, n) => *n == 0,
        Expr::Name(_, _) => false,
        Expr::Unary(_, _, _) => false,
        Expr::Binary(_, _, _, _) => false,
        Expr::Cond(_, _, _, _) => false,
        Expr::Index(_, _, _) => false,
        Expr::Member(_, _, _) => false,
        Expr::Arrow(_, _, _) => false,
        Expr::Call(_, _, _) => false,
    }
}

fn not_lvalue(at: Span) -> TypeFault
    ensures { result ≡ fault NotLvalue at }
{
    TypeFault {
        kind: TypeKind::NotLvalue,
        span: at,
    }
}

/// What an expression means here.
pub fn meaning(alloc: Global, st: &State, a: &Expr) -> Result<Typed, Stop>
    ensures { IsFound (verdict_of (here st.now) a.now) result }
{
    match judged(alloc, a, st.names.as_slice(), st.structs.as_slice())? {
        Ok(m) => Ok(m),
        Err(fault) => Err(Stop::Fault(fault)),
    }
}

/// A number, with its atoms in source order and where they stand.
type Number = (ax_prog::Expr, Items<(Atom, Span)>);

fn as_number(at: Span, value: Typed) -> Result<Number, Stop>
    ensures { IsFound (as_number_at at value) result }
{
    match value {
        Typed::Int(x, atoms) => Ok((x, atoms)),
        Typed::Ptr(_, _) | Typed::Place(_, _) => Err(Stop::Fault(wrong_type(at))),
    }
}

// What an expression is as a number.
fn number_of(alloc: Global, st: &State, a: &Expr) -> Result<Number, Stop>
    ensures { IsFound (number_by st.now a.now) result }
{
    let m = meaning(alloc, st, a)?;
    as_number(span_of(a), value(alloc, span_of(a), m)?)
}

/// The slot of an expression that is to be a number, or the first rule that is broken.
pub fn slot_of(alloc: Global, st: &mut State, a: &Expr) -> Result<SlotId, Stop>
    ensures made { IsMade (slot_by_rules st.old a.now) result st.new }
{
    let (x, atoms) = number_of(alloc, st, a)?;
    Ok(add_slot(alloc, st, a, x, atoms)?)
}

// ---- values for a place of a type

// A number where a place of this type wants a value. The literal 0 is a null pointer (C11 6.3.2.3p3).
fn number_for(
    alloc: Global,
    ty: &Ty,
    at: Span,
    st: &mut State,
    a: &Expr,
    number: Number,
) -> Result<Value, Stop>
    ensures { IsMade (number_for_place ty.now at (is_zero_tree a.now) st.old a.now number.0 number.1) result st.new }
{
    match ty {
        Ty::Int => Ok(Value::Int(add_slot(alloc, st, a, number.0, number.1)?)),
        Ty::Ptr(_) => {
            if is_zero(a) {
                Ok(Value::Ptr(Pexpr::Null))
            } else {
                Err(Stop::Fault(wrong_type(at)))
            }
        }
        Ty::Array(_, _) | Ty::Struct(_) => Err(Stop::Fault(wrong_type(at))),
    }
}

// A pointer where a place of this type wants a value (C11 6.5.16.1).
#[tactic(auto, using(crate::proofs::Layers::types))]
fn pointer_for(ty: &Ty, at: Span, to: &Ty, p: Pexpr) -> Result<Value, Stop>
    ensures { (st : now.State) → IsMade (pointer_for_place ty.now at st to.now p) result st }
{
    match ty {
        Ty::Ptr(wanted) => {
            if same_ty(wanted.get(), to) {
                Ok(Value::Ptr(p))
            } else {
                Err(Stop::Fault(wrong_type(at)))
            }
        }
        Ty::Int | Ty::Array(_, _) | Ty::Struct(_) => Err(Stop::Fault(wrong_type(at))),
    }
}

fn suited(
    alloc: Global,
    ty: &Ty,
    at: Span,
    st: &mut State,
    a: &Expr,
    value: Typed,
) -> Result<Value, Stop>
    ensures { IsMade (suited_to ty.now at st.old a.now value) result st.new }
{
    match value {
        Typed::Int(x, atoms) => number_for(alloc, ty, at, st, a, (x, atoms)),
        Typed::Ptr(to, p) => pointer_for(ty, at, &to, p),
        Typed::Place(_, _) => Err(Stop::Fault(wrong_type(at))),
    }
}

/// The value of an expression that is no call, for a place of this type, or the first rule that is broken. One of another
/// type is a fault at the span that is given.
pub fn value_for(alloc: Global, ty: &Ty, at: Span, st: &mut State, a: &Expr) -> Result<Value, Stop>
    ensures { IsMade (value_by_rules ty.now at st.old a.now) result st.new }
{
    let m = meaning(alloc, st, a)?;
    let m = value(alloc, span_of(a), m)?;
    suited(alloc, ty, at, st, a, m)
}

// ---- arguments

fn arg_of(value: Value) -> Arg
    ensures { result ≡ arg_of_value value }
{
    match value {
        Value::Int(id) => Arg::Int(id),
        Value::Ptr(p) => Arg::Ptr(p),
        Value::Call(_, _) => Arg::Ptr(Pexpr::Null),
    }
}

/// The arguments of a call for parameters of these types, of which there are as many (C11 6.5.2.2p2).
pub fn args_of(
    alloc: Global,
    params: &[Ty],
    xs: &[Expr],
    st: &mut State,
) -> Result<Items<Arg>, Stop>
    ensures { IsMade (args_by_rules params.now xs.now st.old) result st.new }
{
    let mut args = Items::new(alloc);
    let mut types = params;
    let mut rest = xs;
    while let [ty, types_after @ ..] = types {
        let [a, after @ ..] = rest else {
            return Ok(args);
        };
        let value = value_for(alloc, ty, span_of(a), st, a)?;
        args.push(arg_of(value))?;
        types = types_after;
        rest = after;
    }
    Ok(args)
}

// ---- targets

fn unless_array(at: Span, ty: Ty, place: Lval) -> Result<(Ty, Lval), Stop>
    ensures { IsFound (unless_it_is_array at ty place) result }
{
    match ty {
        Ty::Array(_, _) => Err(Stop::Fault(not_lvalue(at))),
        Ty::Int => Ok((Ty::Int, place)),
        Ty::Ptr(to) => Ok((Ty::Ptr(to), place)),
        Ty::Struct(id) => Ok((Ty::Struct(id), place)),
    }
}

fn as_target(at: Span, m: Typed) -> Result<(Ty, Lval), Stop>
    ensures { IsFound (as_target_at at m) result }
{
    match m {
        Typed::Place(ty, place) => unless_array(at, ty, place),
        Typed::Int(_, _) | Typed::Ptr(_, _) => Err(Stop::Fault(not_lvalue(at))),
    }
}

/// The place that an expression is, which is to be changed, with the type of its objects, or the first rule that is broken.
pub fn target_of(alloc: Global, st: &State, a: &Expr) -> Result<(Ty, Lval), Stop>
    ensures found { IsFound (target_by_rules st.now a.now) result }
{
    if is_function(st.names.as_slice(), a) {
        return Err(Stop::Fault(not_lvalue(span_of(a))));
    }
    as_target(span_of(a), meaning(alloc, st, a)?)
}
