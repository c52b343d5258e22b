//! Places in code.
ghost use Rattle.std.specs.Prelude.{◌≡◌, ◌+◌, IfOk};

use std::alloc::AllocError;

/// The place so many ops after this one. One that is no number of the machine is answered as want of memory, which such
/// code would need.
pub fn after(at: usize, ops: usize) -> Result<usize, AllocError>
    ensures { IfOk result (λ it. it ≡ at + ops) }
{
    match at.checked_add(ops) {
        None => Err(AllocError),
        Some(place) => Ok(place),
    }
}
