//! Operators and what they make of their operands.
ghost use Rattle.std.specs.Prelude.{◌≡◌, ◌++◌, Bool, if◌then◌else◌, Ok, Err, IfOk};
ghost use Rattle.ax_prog.specs.declared.Expr.TheVariants as tree;
ghost use Rattle.ax_names_types.specs.declared.Need.TheVariants as need;
ghost use Rattle.ax_names_types.specs.declared.Typed.TheVariants.{Int as number, Ptr as pointer};
ghost use Rattle.ax_names_types.specs.declared.TypeKind.TheVariants.{WrongType, NotLvalue};
ghost use Rattle.ax_names_types.specs.Faults.{fault};
ghost use Rattle.ax_names_types.specs.Types.{left_need as left_need_of, right_need as right_need_of, un_of as un_of_prefix, compared as compared_of};
ghost use Rattle.ax_names_types.specs.Verdicts.{pointer_int as pointer_int_of, sides as sides_of, binary as binary_of, negated as negated_of, followed as followed_of, addressed as addressed_of, unless_function as unless_function_of, unary as unary_of, on, both as both_of, chosen as chosen_of, cond as cond_of, same_ty as same_ty_of, as_value as as_value_of};

use crate::Verdict;
use crate::operands::{Operand, as_value, number_of, valued};
use ax_base::gather::{joined, joined_three, kept, three, two};
use ax_names_types::faults::{both, sooner, wrong_type};
use ax_names_types::types::same_ty;
use ax_names_types::{Need, TypeFault, TypeKind, Typed};
use ax_parse_grammar::tree::Prefix;
use ax_prog::{Atom, Bin, Expr, Lval, Pexpr, Span, Ty, Un};
use sqlite_items::{Boxed, Items};
use std::alloc::{AllocError, Global};

fn left_need(op: Bin) -> Need
    ensures { result ≡ left_need_of op }
{
    match op {
        Bin::Add | Bin::Sub | Bin::Eq | Bin::Ne => Need::Scalar,
        _ => Need::Int,
    }
}

fn right_need(op: Bin) -> Need
    ensures { result ≡ right_need_of op }
{
    match op {
        Bin::Eq | Bin::Ne => Need::Scalar,
        _ => Need::Int,
    }
}

// Two pointers compared, by `!=` or else by `==` (C11 6.5.9).
fn compared(alloc: Global, op: Bin, at: Span, p: Pexpr, q: Pexpr) -> Result<Typed, AllocError>
    ensures { IfOk result (λ v. v ≡ compared_of op at p q) }
{
    match op {
        Bin::Ne => number_of(alloc, at, Atom::Differ(p, q)),
        _ => number_of(alloc, at, Atom::Same(p, q)),
    }
}

// The same where one of the pointers is a null pointer that the literal 0 stands for; another number is a fault.
fn compared_if(
    alloc: Global,
    op: Bin,
    at: Span,
    is_zero: bool,
    p: Pexpr,
    q: Pexpr,
) -> Result<Verdict, AllocError>
    ensures { IfOk result (λ v. v ≡ (if is_zero then Ok (compared_of op at p q) else Err (fault WrongType at))) }
{
    if is_zero {
        Ok(Ok(compared(alloc, op, at, p, q)?))
    } else {
        Ok(kept(Err(wrong_type(at)), (p, q)))
    }
}

// A pointer and a number (C11 6.5.6, 6.5.9).
fn pointer_int(
    alloc: Global,
    op: Bin,
    at: Span,
    is_zero: bool,
    to: Ty,
    p: Pexpr,
    n: Expr,
) -> Result<Verdict, AllocError>
    ensures { IfOk result (λ v. v ≡ pointer_int_of op at is_zero to p n) }
{
    match op {
        Bin::Add => {
            let (to, p, n) = three(Ok(to), Boxed::new(alloc, p), Boxed::new(alloc, n))?;
            Ok(Ok(Typed::Ptr(to, Pexpr::Plus(p, n))))
        }
        Bin::Sub => {
            let (to, p, n) = three(Ok(to), Boxed::new(alloc, p), Boxed::new(alloc, n))?;
            Ok(Ok(Typed::Ptr(to, Pexpr::Minus(p, n))))
        }
        _ => compared_if(alloc, op, at, is_zero, kept(p, (to, n)), Pexpr::Null),
    }
}

// Two numbers. The atoms of the right one go behind those of the left one, which stay where they are.
fn numbers(
    alloc: Global,
    op: Bin,
    left: (Expr, Items<(Atom, Span)>),
    right: (Expr, Items<(Atom, Span)>),
) -> Result<Typed, AllocError>
    ensures { IfOk result (λ v. v ≡ number (tree.Bin op left.0 right.0) (left.1 ++ right.1)) }
{
    let (x, xs) = left;
    let (y, ys) = right;
    let atoms = joined(xs, ys);
    let (x, y, atoms) = three(Boxed::new(alloc, x), Boxed::new(alloc, y), atoms)?;
    Ok(Typed::Int(Expr::Bin(op, x, y), atoms))
}

fn pointers(
    alloc: Global,
    op: Bin,
    at: Span,
    left: (Ty, Pexpr),
    right: (Ty, Pexpr),
) -> Result<Verdict, AllocError>
    ensures { IfOk result (λ v. v ≡ (if same_ty_of left.0 right.0 then Ok (compared_of op at left.1 right.1) else Err (fault WrongType at))) }
{
    let (to, p) = left;
    let (of, q) = right;
    let is_same = same_ty(&to, &of);
    compared_if(alloc, op, at, is_same, kept(p, to), kept(q, of))
}

// A pointer on the left.
fn pointer_sides(
    alloc: Global,
    op: Bin,
    at: Span,
    right_zero: bool,
    left: (Ty, Pexpr),
    right: Typed,
) -> Result<Verdict, AllocError>
    ensures { (left_zero : Bool) → IfOk result (λ v. v ≡ sides_of op at left_zero right_zero (pointer left.0 left.1) right) }
{
    match right {
        Typed::Int(n, atoms) => {
            let (to, p) = left;
            pointer_int(alloc, op, at, right_zero, to, p, kept(n, atoms))
        }
        Typed::Ptr(to, q) => pointers(alloc, op, at, left, (to, q)),
        Typed::Place(ty, place) => Ok(kept(Err(wrong_type(at)), (left, (ty, place)))),
    }
}

// A number on the left.
fn number_sides(
    alloc: Global,
    op: Bin,
    at: Span,
    left_zero: bool,
    left: (Expr, Items<(Atom, Span)>),
    right: Typed,
) -> Result<Verdict, AllocError>
    ensures { (right_zero : Bool) → IfOk result (λ v. v ≡ sides_of op at left_zero right_zero (number left.0 left.1) right) }
{
    match right {
        Typed::Int(y, ys) => Ok(Ok(numbers(alloc, op, left, (y, ys))?)),
        Typed::Ptr(to, q) => {
            compared_if(alloc, op, at, left_zero, Pexpr::Null, kept(q, (left, to)))
        }
        Typed::Place(ty, place) => Ok(kept(Err(wrong_type(at)), (left, (ty, place)))),
    }
}

// Two sides of the kinds that the operator needs.
fn sides(
    alloc: Global,
    op: Bin,
    at: Span,
    zeros: (bool, bool),
    left: Typed,
    right: Typed,
) -> Result<Verdict, AllocError>
    ensures { IfOk result (λ v. v ≡ sides_of op at zeros.0 zeros.1 left right) }
{
    match left {
        Typed::Int(x, xs) => number_sides(alloc, op, at, zeros.0, (x, xs), right),
        Typed::Ptr(to, p) => pointer_sides(alloc, op, at, zeros.1, (to, p), right),
        Typed::Place(ty, place) => Ok(kept(Err(wrong_type(at)), (right, (ty, place)))),
    }
}

/// What a binary operator makes of its operands, both of which are judged (C11 6.5.5 to 6.5.14).
pub fn binary(
    alloc: Global,
    op: Bin,
    at: Span,
    left: Operand,
    right: Operand,
) -> Result<Verdict, AllocError>
    ensures { IfOk result (λ v. v ≡ binary_of op at left.is_zero left.span left.verdict right.is_zero right.span right.verdict) }
{
    let zeros = (left.is_zero, right.is_zero);
    let x = valued(alloc, left_need(op), left);
    let y = valued(alloc, right_need(op), right);
    let (x, y) = two(x, y)?;
    match both(x, y) {
        Ok((x, y)) => sides(alloc, op, at, zeros, x, y),
        Err(fault) => Ok(Err(fault)),
    }
}

fn un_of(op: Prefix) -> Un
    ensures { result ≡ un_of_prefix op }
{
    match op {
        Prefix::Not => Un::Not,
        Prefix::BitNot => Un::BitNot,
        _ => Un::Neg,
    }
}

fn negated(alloc: Global, op: Prefix, value: Typed) -> Result<Verdict, AllocError>
    ensures { IfOk result (λ v. v ≡ negated_of op value) }
{
    match value {
        Typed::Int(x, atoms) => {
            let x = Boxed::new(alloc, x)?;
            Ok(Ok(Typed::Int(Expr::Un(un_of(op), x), atoms)))
        }
        Typed::Ptr(to, p) => Ok(Ok(Typed::Ptr(to, p))),
        Typed::Place(ty, place) => Ok(Ok(Typed::Place(ty, place))),
    }
}

fn followed(alloc: Global, value: Typed) -> Result<Verdict, AllocError>
    ensures { IfOk result (λ v. v ≡ followed_of value) }
{
    match value {
        Typed::Ptr(to, p) => Ok(Ok(Typed::Place(to, Lval::Deref(Boxed::new(alloc, p)?)))),
        Typed::Int(x, atoms) => Ok(Ok(Typed::Int(x, atoms))),
        Typed::Place(ty, place) => Ok(Ok(Typed::Place(ty, place))),
    }
}

fn not_lvalue(at: Span) -> TypeFault
    ensures { result ≡ fault NotLvalue at }
{
    TypeFault {
        kind: TypeKind::NotLvalue,
        span: at,
    }
}

fn addressed(alloc: Global, at: Span, meaning: Typed) -> Result<Verdict, AllocError>
    ensures { IfOk result (λ v. v ≡ addressed_of at meaning) }
{
    match meaning {
        Typed::Place(ty, place) => {
            let (ty, place) = two(Ok(ty), Boxed::new(alloc, place))?;
            Ok(Ok(Typed::Ptr(ty, Pexpr::Address(place))))
        }
        Typed::Int(x, atoms) => Ok(kept(Err(not_lvalue(at)), (x, atoms))),
        Typed::Ptr(to, p) => Ok(kept(Err(not_lvalue(at)), (to, p))),
    }
}

// `*` of an operand (C11 6.5.3.2).
fn dereferenced(alloc: Global, at: Span, operand: Verdict) -> Result<Verdict, AllocError>
    ensures { IfOk result (λ v. v ≡ on followed_of (as_value_of need.Pointer at operand)) }
{
    match as_value(alloc, Need::Pointer, at, operand)? {
        Ok(value) => followed(alloc, value),
        Err(fault) => Ok(Err(fault)),
    }
}

// `-`, `!` or `~` of an operand (C11 6.5.3.3).
fn calculated(alloc: Global, op: Prefix, at: Span, operand: Verdict) -> Result<Verdict, AllocError>
    ensures { IfOk result (λ v. v ≡ on (negated_of op) (as_value_of need.Int at operand)) }
{
    match as_value(alloc, Need::Int, at, operand)? {
        Ok(value) => negated(alloc, op, value),
        Err(fault) => Ok(Err(fault)),
    }
}

// What stands where a place is wanted; a function's name is none.
fn unless_function(is_function: bool, at: Span, operand: Verdict) -> Verdict
    ensures { result ≡ unless_function_of is_function at operand }
{
    if is_function {
        kept(Err(not_lvalue(at)), operand)
    } else {
        operand
    }
}

/// What a unary operator makes of its operand, which stands at this span and may be a function's name (C11 6.5.3).
pub fn unary(
    alloc: Global,
    op: Prefix,
    is_function: bool,
    at: Span,
    operand: Verdict,
) -> Result<Verdict, AllocError>
    ensures { IfOk result (λ v. v ≡ unary_of op is_function at operand) }
{
    match op {
        Prefix::Deref => dereferenced(alloc, at, operand),
        Prefix::Address => match unless_function(is_function, at, operand) {
            Ok(meaning) => addressed(alloc, at, meaning),
            Err(fault) => Ok(Err(fault)),
        },
        Prefix::Neg | Prefix::Not | Prefix::BitNot => calculated(alloc, op, at, operand),
    }
}

// The choice between two numbers.
fn chosen(alloc: Global, test: Typed, first: Typed, second: Typed) -> Result<Typed, AllocError>
    ensures { IfOk result (λ v. v ≡ chosen_of test first second) }
{
    match test {
        Typed::Int(x, xs) => match first {
            Typed::Int(y, ys) => match second {
                Typed::Int(z, zs) => choice(alloc, (x, xs), (y, ys), (z, zs)),
                Typed::Ptr(to, p) => Ok(kept(Typed::Ptr(to, p), ((x, xs), (y, ys)))),
                Typed::Place(ty, place) => Ok(kept(Typed::Place(ty, place), ((x, xs), (y, ys)))),
            },
            Typed::Ptr(to, p) => Ok(kept(Typed::Ptr(to, p), ((x, xs), second))),
            Typed::Place(ty, place) => Ok(kept(Typed::Place(ty, place), ((x, xs), second))),
        },
        Typed::Ptr(to, p) => Ok(kept(Typed::Ptr(to, p), (first, second))),
        Typed::Place(ty, place) => Ok(kept(Typed::Place(ty, place), (first, second))),
    }
}

fn choice(
    alloc: Global,
    test: (Expr, Items<(Atom, Span)>),
    first: (Expr, Items<(Atom, Span)>),
    second: (Expr, Items<(Atom, Span)>),
) -> Result<Typed, AllocError>
    ensures { IfOk result (λ v. v ≡ number (tree.Cond test.0 first.0 second.0) ((test.1 ++ first.1) ++ second.1)) }
{
    let (x, xs) = test;
    let (y, ys) = first;
    let (z, zs) = second;
    let atoms = joined_three(xs, ys, zs);
    let parts = three(
        Boxed::new(alloc, x),
        Boxed::new(alloc, y),
        Boxed::new(alloc, z),
    );
    let ((x, y, z), atoms) = two(parts, atoms)?;
    Ok(Typed::Int(Expr::Cond(x, y, z), atoms))
}

// What two branches are, or their first fault, behind a test.
fn picked(
    alloc: Global,
    test: Verdict,
    branches: Result<(Typed, Typed), TypeFault>,
) -> Result<Verdict, AllocError>
    ensures { IfOk result (λ v. v ≡ both_of (λ u p. Ok (chosen_of u p.0 p.1)) test branches) }
{
    match test {
        Ok(x) => match branches {
            Ok((y, z)) => Ok(Ok(chosen(alloc, x, y, z)?)),
            Err(fault) => Ok(kept(Err(fault), x)),
        },
        Err(fault) => match branches {
            Ok(pair) => Ok(kept(Err(fault), pair)),
            Err(other) => Ok(Err(sooner(fault, other))),
        },
    }
}

/// What `? :` makes of its operands, all of which are judged (C11 6.5.15).
pub fn cond(
    alloc: Global,
    test: Operand,
    first: Operand,
    second: Operand,
) -> Result<Verdict, AllocError>
    ensures { IfOk result (λ v. v ≡ cond_of test.span test.verdict first.span first.verdict second.span second.verdict) }
{
    let (x, y, z) = as_numbers(alloc, test, first, second)?;
    picked(alloc, x, both(y, z))
}

// What three operands are as numbers.
fn as_numbers(
    alloc: Global,
    test: Operand,
    first: Operand,
    second: Operand,
) -> Result<(Verdict, Verdict, Verdict), AllocError>
    ensures test { IfOk result (λ v. v.0 ≡ as_value_of need.Int test.span test.verdict) }
    ensures first { IfOk result (λ v. v.1 ≡ as_value_of need.Int first.span first.verdict) }
    ensures second { IfOk result (λ v. v.2 ≡ as_value_of need.Int second.span second.verdict) }
{
    let x = valued(alloc, Need::Int, test);
    let y = valued(alloc, Need::Int, first);
    let z = valued(alloc, Need::Int, second);
    three(x, y, z)
}
