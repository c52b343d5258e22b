//! Operands and what they are as values.
ghost use Rattle.std.specs.Prelude.{◌≡◌, IfOk, [], ◌∷◌};
ghost use Rattle.ax_prog.specs.declared.Expr.TheVariants.{Atom as of_atom};
ghost use Rattle.ax_names_types.specs.declared.Typed.TheVariants.{Int as number};
ghost use Rattle.ax_names_types.specs.Types.{value_of_place, value_of, meets as meets_need};
ghost use Rattle.ax_names_types.specs.Verdicts.{needed as needed_of, as_value as as_value_of};

use crate::Verdict;
use ax_base::gather::{kept, one, two};
use ax_names_types::faults::wrong_type;
use ax_names_types::types::struct_of;
use ax_names_types::{Need, Typed};
use ax_prog::copy::{copy_atom, copy_lval};
use ax_prog::{Atom, Expr, Lval, Pexpr, Span, Ty};
use sqlite_items::{Boxed, Items};
use std::alloc::{AllocError, Global};

/// An operand that was judged: where it stands, whether it is the literal 0, and what it means.
#[derive(Drop)]
pub struct Operand {
    pub span: Span,
    pub is_zero: bool,
    pub verdict: Verdict,
}

/// The number that an atom is.
pub fn number_of(alloc: Global, at: Span, atom: Atom) -> Result<Typed, AllocError>
    ensures { IfOk result (λ v. v ≡ number (of_atom atom) ((atom, at) ∷ [])) }
{
    let atoms = atom_at(alloc, at, &atom);
    let (atoms, atom) = two(atoms, Boxed::new(alloc, atom))?;
    Ok(Typed::Int(Expr::Atom(atom), atoms))
}

// The list of an atom alone, where it stands.
fn atom_at(alloc: Global, at: Span, atom: &Atom) -> Result<Items<(Atom, Span)>, AllocError>
    ensures { IfOk result (λ it. it ≡ (atom.now, at) ∷ []) }
{
    let atom = copy_atom(alloc, atom)?;
    one(alloc, (atom, at))
}

// A place read as a value (C11 6.3.2.1).
#[tactic(auto, using(crate::proofs::Layers::places))]
fn read(alloc: Global, at: Span, ty: Ty, place: Lval) -> Result<Typed, AllocError>
    ensures { IfOk result (λ v. v ≡ value_of_place at ty place) }
{
    match ty {
        Ty::Int => number_of(alloc, at, Atom::Read(place)),
        Ty::Ptr(to) => {
            let place = Boxed::new(alloc, place)?;
            Ok(Typed::Ptr(to.into_inner(), Pexpr::Read(place)))
        }
        Ty::Array(of, _count) => {
            let place = Boxed::new(alloc, place)?;
            Ok(Typed::Ptr(of.into_inner(), Pexpr::Decay(place)))
        }
        Ty::Struct(id) => Ok(Typed::Place(Ty::Struct(id), place)),
    }
}

/// What an operand at this span is as a value (C11 6.3.2.1): a place is read, an array is a pointer to its first element, and a
/// struct stays a place.
pub fn value(alloc: Global, at: Span, meaning: Typed) -> Result<Typed, AllocError>
    ensures { IfOk result (λ v. v ≡ value_of at meaning) }
{
    match meaning {
        Typed::Int(x, atoms) => Ok(Typed::Int(x, atoms)),
        Typed::Ptr(to, p) => Ok(Typed::Ptr(to, p)),
        Typed::Place(ty, place) => read(alloc, at, ty, place),
    }
}

/// Whether a value is of this kind.
pub fn meets(want: Need, value: &Typed) -> bool
    ensures { result ≡ meets_need want value.now }
{
    match value {
        Typed::Int(_, _) => matches!(want, Need::Int | Need::Scalar),
        Typed::Ptr(to, _) => match want {
            Need::Scalar | Need::Pointer => true,
            Need::StructPointer => struct_of(to).is_some(),
            Need::Int | Need::Struct => false,
        },
        Typed::Place(ty, _) => match want {
            Need::Struct => struct_of(ty).is_some(),
            Need::Int | Need::Scalar | Need::Pointer | Need::StructPointer => false,
        },
    }
}

fn needed(want: Need, at: Span, value: Typed) -> Verdict
    ensures { result ≡ needed_of want at value }
{
    if meets(want, &value) {
        Ok(value)
    } else {
        kept(Err(wrong_type(at)), value)
    }
}

/// What an operand is as a value of this kind. One that isn't is the place of the fault.
pub fn as_value(
    alloc: Global,
    want: Need,
    at: Span,
    operand: Verdict,
) -> Result<Verdict, AllocError>
    ensures { IfOk result (λ v. v ≡ as_value_of want at operand) }
{
    match operand {
        Ok(meaning) => Ok(needed(want, at, value(alloc, at, meaning)?)),
        Err(fault) => Ok(Err(fault)),
    }
}

/// What an operand is as a value of this kind.
pub fn valued(alloc: Global, want: Need, operand: Operand) -> Result<Verdict, AllocError>
    ensures { IfOk result (λ v. v ≡ as_value_of want operand.span operand.verdict) }
{
    as_value(alloc, want, operand.span, operand.verdict)
}
