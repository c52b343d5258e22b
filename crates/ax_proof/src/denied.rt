//! Why a call gave no answer.

ghost use Rattle.std.specs.Prelude.{◌≡◌};
ghost use Rattle.ax_proof.specs.declared.denied.Denied.TheVariants.{Memory};

use std::alloc::{AllocError, AllocFailed};

/// A fault, or want of memory.
#[derive(Clone, Copy, PartialEq, Eq, Drop, Debug)]
pub enum Denied<F> {
    Fault(F),
    Memory,
}

impl<F> From<AllocError> for Denied<F> {
    ghost from_gives = { λ _ e. e ≡ Memory };

    fn from(_error: AllocError) -> Denied<F> {
        Denied::Memory
    }
}

impl<F, T: Drop> From<AllocFailed<T>> for Denied<F> {
    ghost from_gives = { λ _ e. e ≡ Memory };

    fn from(_error: AllocFailed<T>) -> Denied<F> {
        Denied::Memory
    }
}
