//! What variables begin with (C11 6.7.9).
ghost use Rattle.std.specs.Prelude.{◌≡◌, neg_ℤ, map, IfOk};
ghost use Rattle.ax_names_types.specs.Types.{is_zero as is_zero_tree};
ghost use Rattle.ax_names_rules.specs.Declarations.{signed_value};
ghost use Rattle.ax_names_rules.specs.StatementWalk.{fits_list as fits_by_rules, list_for as list_by_rules, initial_of as initial_by_rules, literal_of as literal_by_rules, number_from as number_by_rules, literal_for as literal_in_place, global_initial as global_by_rules};
ghost use Rattle.ax_names_given.specs.Made.{IsFound, IsMade};
ghost use Rattle.ax_names.specs.Answers.{list_of_elements, negated_number};

use ax_names_given::{Stop, given_for};
use ax_names_rules::State;
use ax_names_types::faults::wrong_type;
use ax_names_types::{TypeFault, TypeKind};
use ax_parse_grammar::tree::{Expr, Initialiser, Prefix, Signed};
use ax_prog::{Init, Pexpr, Span, Ty, Value};
use sqlite_items::Items;
use std::alloc::{AllocError, Global};

// The number with a `-` before it. No number of a source is below 0, so that each has one.
fn negated(n: i32) -> Result<i32, AllocError>
    ensures { IfOk result (λ m. m ≡ neg_ℤ n) }
{
    if n == i32::MIN {
        Err(AllocError)
    } else {
        Ok(-n)
    }
}

fn signed(x: &Signed) -> Result<i32, AllocError>
    ensures { IfOk result (λ n. n ≡ signed_value x.now) }
{
    if x.negative {
        negated(x.value)
    } else {
        Ok(x.value)
    }
}

// The numbers of a brace list.
fn numbers(alloc: Global, xs: &[Signed]) -> Result<Items<i32>, AllocError>
    ensures { IfOk result (λ ns. ns ≡ map signed_value xs.now) }
{
    let mut all = Items::new(alloc);
    for x in xs {
        all.push(signed(x)?)?;
    }
    Ok(all)
}

// A brace list for an array of so many numbers.
fn fits_list(alloc: Global, at: Span, n: u32, xs: &[Signed]) -> Result<Init, Stop>
    ensures { IsFound (fits_by_rules at n xs.now) result }
{
    if xs.len() > n as usize {
        return Err(Stop::Fault(TypeFault {
            kind: TypeKind::WrongCount,
            span: at,
        }));
    }
    Ok(Init::List(numbers(alloc, xs)?))
}

// A brace list for an array of so many elements of this type.
fn list_of(alloc: Global, of: &Ty, n: u32, at: Span, xs: &[Signed]) -> Result<Init, Stop>
    ensures { IsFound (list_of_elements of.now n at xs.now) result }
{
    match of {
        Ty::Int => fits_list(alloc, at, n, xs),
        Ty::Ptr(_) | Ty::Array(_, _) | Ty::Struct(_) => Err(Stop::Fault(wrong_type(at))),
    }
}

// A brace list for a variable of this type.
#[tactic(auto, using(crate::proofs::Layers::lists))]
fn list_for(alloc: Global, ty: &Ty, at: Span, xs: &[Signed]) -> Result<Init, Stop>
    ensures { IsFound (list_by_rules ty.now at xs.now) result }
{
    match ty {
        Ty::Array(of, n) => list_of(alloc, of.get(), *n, at, xs),
        Ty::Int | Ty::Ptr(_) | Ty::Struct(_) => Err(Stop::Fault(wrong_type(at))),
    }
}

/// What a variable of this type in a block begins with, or the first rule that is broken.
pub fn initial_of(
    alloc: Global,
    defs: &[Items<u8>],
    ty: &Ty,
    at: Span,
    initialiser: &Initialiser,
    st: &mut State,
) -> Result<Init, Stop>
    ensures { IsMade (initial_by_rules defs.now ty.now at initialiser.now st.old) result st.new }
{
    match initialiser {
        Initialiser::Nothing => Ok(Init::Nothing),
        Initialiser::Value(a) => Ok(Init::Value(given_for(alloc, defs, ty, at, st, a)?)),
        Initialiser::List(_, xs) => list_for(alloc, ty, at, xs.as_slice()),
    }
}

// ---- globals

// The number that a literal behind a `-` is.
fn negated_literal(a: &Expr) -> Result<Option<i32>, AllocError>
    ensures { IfOk result (λ n. n ≡ negated_number a.now) }
{
    match a {
        Expr::Number(_, n) => Ok(Some(negated(*n)?)),
        _ => Ok(None),
    }
}

// The number that a literal is, with or without `-`.
#[tactic(auto, using(crate::proofs::Layers::literals))]
fn literal_of(a: &Expr) -> Result<Option<i32>, AllocError>
    ensures { IfOk result (λ n. n ≡ literal_by_rules a.now) }
{
    match a {
        Expr::Number(_, n) => Ok(Some(*n)),
        Expr::Unary(_, op, b) => match op {
            Prefix::Neg => negated_literal(b.get()),
            Prefix::Not | Prefix::BitNot | Prefix::Deref | Prefix::Address => Ok(None),
        },
        _ => Ok(None),
    }
}

fn number_from(alloc: Global, at: Span, n: Option<i32>) -> Result<Init, Stop>
    ensures { IsFound (number_by_rules at n) result }
{
    match n {
        None => Err(Stop::Fault(wrong_type(at))),
        Some(n) => {
            let mut all = Items::new(alloc);
            all.push(n)?;
            Ok(Init::List(all))
        }
    }
}

// Whether this is the literal 0, which stands for the null pointer too (C11 6.3.2.3p3).
fn is_zero(a: &Expr) -> bool
    ensures { result ≡ is_zero_tree a.now }
{
    match a {
        Expr::Number(_, n) => *n == 0,
        _ => false,
    }
}

// A literal for a global of this type.
fn literal_for(alloc: Global, ty: &Ty, at: Span, a: &Expr) -> Result<Init, Stop>
    ensures { IsFound (literal_in_place ty.now at a.now) result }
{
    match ty {
        Ty::Int => number_from(alloc, at, literal_of(a)?),
        Ty::Ptr(_) => {
            if is_zero(a) {
                Ok(Init::Value(Value::Ptr(Pexpr::Null)))
            } else {
                Err(Stop::Fault(wrong_type(at)))
            }
        }
        Ty::Array(_, _) | Ty::Struct(_) => Err(Stop::Fault(wrong_type(at))),
    }
}

/// What a global of this type begins with, or the first rule that is broken.
pub fn global_initial(
    alloc: Global,
    ty: &Ty,
    at: Span,
    initialiser: &Initialiser,
) -> Result<Init, Stop>
    ensures { IsFound (global_by_rules ty.now at initialiser.now) result }
{
    match initialiser {
        Initialiser::Nothing => Ok(Init::Nothing),
        Initialiser::Value(a) => literal_for(alloc, ty, at, a),
        Initialiser::List(_, xs) => list_for(alloc, ty, at, xs.as_slice()),
    }
}
