//! Where a value that is stored or returned comes from.
use ax_meaning::Cell;
use ax_prog::{Pexpr, SlotId};

/// A slot, a pointer expression, or the value of the call just made, if it gave one.
#[derive(Clone, Copy)]
pub enum Source<'a> {
    Int(SlotId),
    Ptr(&'a Pexpr),
    Call(Option<Cell>),
}
