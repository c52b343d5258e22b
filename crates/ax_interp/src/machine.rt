//! Where a run is, and what it goes by.
use ax_flow::{Flow, Frame};
use ax_interp_values::layout::Layout;
use ax_meaning::{Cell, State, Stop};
use ax_prog::FunId;
use sqlite_items::Items;
use std::alloc::Global;

/// What a run goes by: the program with its flat code, its layout, and the bound on the steps.
#[derive(Drop)]
pub struct Context<'a> {
    pub alloc: Global,
    pub flow: &'a Flow,
    pub layout: Layout<'a>,
    pub steps: u32,
}

/// Where a run is: the place of the next op, the function whose code runs, its callers that wait (the latest last), the
/// value of the last call, and the state.
#[derive(Drop)]
pub struct Machine {
    pub place: usize,
    pub running: FunId,
    pub callers: Items<Frame>,
    pub last: Option<Cell>,
    pub state: State,
}

/// Objects that have all ended: those from one number up to another. A call that has returned leaves one.
#[derive(Clone, Copy, PartialEq, Eq, Debug)]
pub struct Gap {
    pub from: usize,
    pub to: usize,
}

/// How a run ends. `Unfinished` would say that the run came past the end of the code, which no run does.
#[derive(Clone, Copy, PartialEq, Eq, Debug)]
pub enum Finish {
    Returned(Option<Cell>),
    Stopped(Stop),
    Unfinished,
}
