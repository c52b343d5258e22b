//! How statements and calls end.
use ax_interp_values::layout::Layout;
use ax_meaning::{Cell, Stop};
use ax_prog::{Lval, VarId};
use std::alloc::Global;

/// What a run goes by: its program with the layout, and the bound on its steps.
#[derive(Drop)]
pub struct Plain<'a> {
    pub alloc: Global,
    pub layout: Layout<'a>,
    pub steps: u32,
}

/// How a statement ended. `Unfinished` would say that the bounds on a loop's turns and on open calls ran out, which no
/// run meets.
#[derive(Clone, Copy, PartialEq, Eq, Debug)]
pub enum Completion {
    Next,
    Broke,
    Continued,
    Returned(Option<Cell>),
    Stopped(Stop),
    Unfinished,
}

/// What the value of a call is for.
#[derive(Clone, Copy)]
pub enum Purpose<'a> {
    /// Nothing: the call stands alone.
    Nothing,
    /// The assignment to a place.
    Assign(&'a Lval),
    /// The value of a variable that was declared before the call.
    Keep(VarId),
    /// A `return`.
    Give,
}
