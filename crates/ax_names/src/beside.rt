//! Names that are declared beside something else.
ghost use Rattle.std.specs.Prelude.{◌≡◌, drop};
ghost use Rattle.ax_names_declared.specs.Firsts.{fault_of};
ghost use Rattle.ax_names_rules.specs.StatementWalk.{new_name};
ghost use Rattle.ax_names.specs.Answers.{beside as beside_it};

use ax_names_given::Stop;
use ax_names_rules::State;
use ax_names_types::faults::sooner;
use ax_names_types::scopes::innermost;
use ax_names_types::{Entry, TypeFault, TypeKind};
use ax_parse_grammar::tree::Name;

// The names behind the first so many.
fn behind(names: &[Entry], floor: usize) -> &[Entry]
    ensures { result.now ≡ drop floor names.now }
{
    let from = if floor < names.len() {
        floor
    } else {
        names.len()
    };
    &names[from..]
}

/// The fault of a name that is declared in the scope that begins behind so many names (C11 6.7p3).
pub fn again(floor: usize, st: &State, x: &Name) -> Option<TypeFault>
    ensures { result ≡ fault_of (new_name floor st.now x.now) }
{
    match innermost(x.text.as_slice(), behind(st.names.as_slice(), floor)) {
        None => None,
        Some(_) => Some(TypeFault {
            kind: TypeKind::Redeclared,
            span: x.span,
        }),
    }
}

/// What is made beside a name with this fault, if it has one: the sooner fault counts.
pub fn beside<T: Drop>(fault: Option<TypeFault>, made: Result<T, Stop>) -> Result<T, Stop>
    ensures { result ≡ beside_it fault made }
{
    match fault {
        None => made,
        Some(fault) => match made {
            Ok(_) => Err(Stop::Fault(fault)),
            Err(Stop::Fault(other)) => Err(Stop::Fault(sooner(fault, other))),
            Err(Stop::Memory) => Err(Stop::Memory),
        },
    }
}
