//! Which fault comes first.
ghost use Rattle.std.specs.Prelude.{◌≡◌};
ghost use Rattle.ax_names_declared.specs.Firsts.{earlier as earlier_of, unless as unless_it};

use ax_names_types::faults::sooner;
use ax_names_types::{TypeFault, TypeKind};
use ax_prog::Span;

/// The sooner of two faults, where there are any.
pub fn earlier(a: Option<TypeFault>, b: Option<TypeFault>) -> Option<TypeFault>
    ensures { result ≡ earlier_of a b }
{
    match a {
        None => b,
        Some(f) => match b {
            None => Some(f),
            Some(g) => Some(sooner(f, g)),
        },
    }
}

/// A fault where the test fails.
pub fn unless(test: bool, kind: TypeKind, span: Span) -> Option<TypeFault>
    ensures { result ≡ unless_it test kind span }
{
    if test {
        None
    } else {
        Some(TypeFault { kind, span })
    }
}
