//! Calls, and values that may be calls.
ghost use Rattle.std.specs.Prelude.{◌≡◌, slice_get, IfOk};
ghost use Rattle.ax_names_types.specs.declared.TypeKind.TheVariants.{UnknownName};
ghost use Rattle.ax_names_types.specs.Faults.{fault};
ghost use Rattle.ax_names_types.specs.Scopes.{innermost as innermost_of};
ghost use Rattle.ax_names_types.specs.Types.{is_call as is_call_tree};
ghost use Rattle.ax_names_rules.specs.Values.{function_at as function_in};
ghost use Rattle.ax_names_rules.specs.ValueWalk.{entity_of, head_at as head_found, head_of as head_by_rules, defined_at as defined_by_rules, with_args as with_args_by_rules, called as called_by_rules, no_callee as no_callee_by_rules, callee_of as callee_by_rules, call_of as call_by_rules, gives as gives_type, given_for as given_by_rules};
ghost use Rattle.ax_names_given.specs.Made.{IsStopped, IsFound, IsMade};

use crate::Stop;
use crate::states::{function_at, number};
use crate::values::{args_of, meaning, value_for};
use ax_names_rules::{Signature, State};
use ax_names_types::faults::wrong_type;
use ax_names_types::scopes::innermost;
use ax_names_types::types::same_ty;
use ax_names_types::{Entity, TypeFault, TypeKind};
use ax_parse_grammar::tree::{Expr, span_of};
use ax_prog::copy::{copy_result, copy_ty};
use ax_prog::{Arg, FunId, Span, Ty, Value};
use sqlite_items::Items;
use std::alloc::{AllocError, Global};

/// What a call gives: the type of its value (none of a `void` function), the function, and its arguments.
pub type Called = (Option<Ty>, (FunId, Items<Arg>));

// The head of the function that a name denotes (C11 6.5.2.2p1).
fn head_of(alloc: Global, st: &State, at: Span, name: &[u8]) -> Result<Signature, Stop>
    ensures { IsFound (head_by_rules st.now.heads at (entity_of (innermost_of name.now st.now.names))) result }
{
    match innermost(name, st.names.as_slice()) {
        None => Err(Stop::Fault(unknown(at))),
        Some(entry) => match &entry.entity {
            Entity::Variable(_, _) => Err(Stop::Fault(wrong_type(at))),
            Entity::Function(k) => head_at(alloc, st, *k as usize, at),
        },
    }
}

fn head_at(alloc: Global, st: &State, k: usize, at: Span) -> Result<Signature, Stop>
    ensures { IsFound (head_found (slice_get st.now.heads k) at) result }
{
    match st.heads.get(k) {
        None => Err(Stop::Fault(unknown(at))),
        Some(head) => Ok(copy_signature(alloc, head)?),
    }
}

fn copy_signature(alloc: Global, head: &Signature) -> Result<Signature, AllocError>
    ensures { IfOk result (λ it. it ≡ head.now) }
{
    let name = Items::from_slice(alloc, head.name.as_slice())?;
    let result = copy_result(alloc, &head.result)?;
    let params = copy_types(alloc, head.params.as_slice())?;
    Ok(Signature {
        name,
        result,
        params,
    })
}

fn copy_types(alloc: Global, types: &[Ty]) -> Result<Items<Ty>, AllocError>
    ensures { IfOk result (λ it. it ≡ types.now) }
{
    let mut all = Items::new(alloc);
    for ty in types {
        all.push(copy_ty(alloc, ty)?)?;
    }
    Ok(all)
}

fn unknown(at: Span) -> TypeFault
    ensures { result ≡ fault UnknownName at }
{
    TypeFault {
        kind: TypeKind::UnknownName,
        span: at,
    }
}

// The function of this name among those that the file defines.
fn defined_at(defs: &[Items<u8>], name: &[u8], at: Span) -> Result<FunId, Stop>
    ensures { IsFound (defined_by_rules (function_in defs.now name.now) at) result }
{
    match function_at(defs, name) {
        None => Err(Stop::Fault(unknown(at))),
        Some(j) => Ok(FunId(number(j)?)),
    }
}

fn with_args(
    alloc: Global,
    at: Span,
    head: Signature,
    j: FunId,
    xs: &[Expr],
    st: &mut State,
) -> Result<Called, Stop>
    ensures { IsMade (with_args_by_rules at head j xs.now st.old) result st.new }
{
    if xs.len() != head.params.len() {
        return Err(Stop::Fault(TypeFault {
            kind: TypeKind::WrongCount,
            span: at,
        }));
    }
    let args = args_of(alloc, head.params.as_slice(), xs, st)?;
    Ok((head.result, (j, args)))
}

// A call at this span, of the function that this name denotes.
fn called(
    alloc: Global,
    defs: &[Items<u8>],
    st: &mut State,
    at: Span,
    at2: Span,
    name: &[u8],
    xs: &[Expr],
) -> Result<Called, Stop>
    ensures { IsMade (called_by_rules defs.now st.old at at2 name.now xs.now) result st.new }
{
    let head = head_of(alloc, st, at2, name)?;
    let j = defined_at(defs, name, at2)?;
    with_args(alloc, at, head, j, xs, st)
}

// A callee that is no name has a fault of its own, or isn't what is called (C11 6.5.2.2p1).
fn no_callee(alloc: Global, st: &State, a: &Expr) -> Stop
    ensures { IsStopped (no_callee_by_rules st.now a.now) result }
{
    match meaning(alloc, st, a) {
        Ok(_) => Stop::Fault(wrong_type(span_of(a))),
        Err(stop) => stop,
    }
}

fn callee_of(
    alloc: Global,
    defs: &[Items<u8>],
    st: &mut State,
    at: Span,
    a: &Expr,
    xs: &[Expr],
) -> Result<Called, Stop>
    ensures { IsMade (callee_by_rules defs.now st.old at a.now xs.now) result st.new }
{
    match a {
        Expr::Name(at2, name) => called(alloc, defs, st, at, *at2, name.as_slice(), xs),
        Expr::Number(_, _) => Err(no_callee(alloc, st, a)),
        Expr::Unary(_, _, _) => Err(no_callee(alloc, st, a)),
        Expr::Binary(_, _, _, _) => Err(no_callee(alloc, st, a)),
        Expr::Cond(_, _, _, _) => Err(no_callee(alloc, st, a)),
        Expr::Index(_, _, _) => Err(no_callee(alloc, st, a)),
        Expr::Member(_, _, _) => Err(no_callee(alloc, st, a)),
        Expr::Arrow(_, _, _) => Err(no_callee(alloc, st, a)),
        Expr::Call(_, _, _) => Err(no_callee(alloc, st, a)),
    }
}

/// A call of a function that was declared before, or the first rule that it breaks (C11 6.5.2.2). `defs` are the names of the
/// functions that the file defines, in order.
pub fn call_of(alloc: Global, defs: &[Items<u8>], st: &mut State, a: &Expr) -> Result<Called, Stop>
    ensures made { IsMade (call_by_rules defs.now st.old a.now) result st.new }
{
    match a {
        Expr::Call(at, callee, xs) => callee_of(alloc, defs, st, *at, callee.get(), xs.as_slice()),
        Expr::Name(at, _) => Err(Stop::Fault(wrong_type(*at))),
        Expr::Number(at, _) => Err(Stop::Fault(wrong_type(*at))),
        Expr::Unary(at, _, _) => Err(Stop::Fault(wrong_type(*at))),
        Expr::Binary(at, _, _, _) => Err(Stop::Fault(wrong_type(*at))),
        Expr::Cond(at, _, _, _) => Err(Stop::Fault(wrong_type(*at))),
        Expr::Index(at, _, _) => Err(Stop::Fault(wrong_type(*at))),
        Expr::Member(at, _, _) => Err(Stop::Fault(wrong_type(*at))),
        Expr::Arrow(at, _, _) => Err(Stop::Fault(wrong_type(*at))),
    }
}

fn is_call(a: &Expr) -> bool
    ensures { result ≡ is_call_tree a.now }
{
    match a {
        Expr::Call(_, _, _) => true,
        Expr::Name(_, _) => false,
        Expr::Number(_, _) => false,
        Expr::Unary(_, _, _) => false,
        Expr::Binary(_, _, _, _) => false,
        Expr::Cond(_, _, _, _) => false,
        Expr::Index(_, _, _) => false,
        Expr::Member(_, _, _) => false,
        Expr::Arrow(_, _, _) => false,
    }
}

// Whether the type that a call gives is the one that is wanted.
fn gives(ty: &Ty, given: &Option<Ty>) -> bool
    ensures { result ≡ gives_type ty.now given.now }
{
    match given {
        None => false,
        Some(given) => same_ty(ty, given),
    }
}

/// The value of an expression, which may be a call, for a place of this type, or the first rule that is broken (C11 6.5.16.1,
/// 6.7.9p11, 6.8.6.4p3). One of another type is a fault at the span that is given.
pub fn given_for(
    alloc: Global,
    defs: &[Items<u8>],
    ty: &Ty,
    at: Span,
    st: &mut State,
    a: &Expr,
) -> Result<Value, Stop>
    ensures made { IsMade (given_by_rules defs.now ty.now at st.old a.now) result st.new }
{
    if !is_call(a) {
        return value_for(alloc, ty, at, st, a);
    }
    let (given, (j, args)) = call_of(alloc, defs, st, a)?;
    if gives(ty, &given) {
        Ok(Value::Call(j, args))
    } else {
        Err(Stop::Fault(wrong_type(at)))
    }
}
