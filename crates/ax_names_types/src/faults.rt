//! Which fault comes first.
ghost use Rattle.std.specs.Prelude.{◌≡◌, ◌<◌, Ok, Err};
ghost use Rattle.ax_names_types.specs.Faults.{rank as rank_of, turn as turn_of, fault};
ghost use Rattle.ax_names_types.specs.Verdicts.{sooner as sooner_of, both as both_of, pair};
ghost use Rattle.ax_names_types.specs.declared.TypeKind.TheVariants.{WrongType};

use crate::{TypeFault, TypeKind, Typed};
use ax_prog::Span;

// The place of a kind in the list of kinds.
fn rank(kind: TypeKind) -> u64
    ensures value { result ≡ rank_of kind }
    ensures small { result < 16 }
{
    match kind {
        TypeKind::UnknownName => 0,
        TypeKind::Redeclared => 1,
        TypeKind::WrongType => 2,
        TypeKind::NotLvalue => 3,
        TypeKind::WrongCount => 4,
        TypeKind::NoMain => 5,
        TypeKind::MissingField => 6,
        TypeKind::RecursiveStruct => 7,
        TypeKind::TooLarge => 8,
        TypeKind::Misplaced => 9,
    }
}

fn turn(fault: TypeFault) -> u64
    ensures { result ≡ turn_of fault }
{
    fault.span.from as u64 * 16 + rank(fault.kind)
}

/// The one of two faults that comes first, the left one of two that come at once.
pub fn sooner(f: TypeFault, g: TypeFault) -> TypeFault
    ensures { result ≡ sooner_of f g }
{
    if turn(g) < turn(f) { g } else { f }
}

/// What two parts are, or their first fault.
pub fn both(
    x: Result<Typed, TypeFault>,
    y: Result<Typed, TypeFault>,
) -> Result<(Typed, Typed), TypeFault>
    ensures { result ≡ both_of pair x y }
{
    match x {
        Ok(x) => match y {
            Ok(y) => Ok((x, y)),
            Err(fault) => Err(fault),
        },
        Err(fault) => match y {
            Ok(_) => Err(fault),
            Err(other) => Err(sooner(fault, other)),
        },
    }
}

/// The fault of a part of another type than is needed.
pub fn wrong_type(at: Span) -> TypeFault
    ensures { result ≡ fault WrongType at }
{
    TypeFault {
        kind: TypeKind::WrongType,
        span: at,
    }
}
