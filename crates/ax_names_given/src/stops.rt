//! Why nothing is made.
use ax_names_types::TypeFault;
use std::alloc::AllocError;

/// Why a walk over a source stops: memory is wanting, or a rule is broken.
#[derive(Drop)]
pub enum Stop {
    Memory,
    Fault(TypeFault),
}

impl From<AllocError> for Stop {
    ghost use Rattle.std.specs.Prelude.{◌≡◌};
    ghost use Rattle.ax_names_given.specs.declared.stops.Stop.TheVariants.{Memory};

    ghost from_gives = { λ _ e. e ≡ Memory };

    fn from(_: AllocError) -> Stop {
        Stop::Memory
    }
}
