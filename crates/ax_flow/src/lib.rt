//! Flat code: a program as a list of ops with jumps, what it is to be the flat code of a program, and the law that it runs as
//! the program does.
//!
//! The definitions stand in `specs/`: `Flat` says which code is the flat code of a program, by cases on statements;
//! `Machine` says what runs it, op by op; `Drafts` is a function that gives each program its code.
#![tactic(auto)]

ghost use Rattle.ax_flow.specs.Laws.{FlatRuns, ComesToOne, HasFlatCode};

mod flow;
mod lowering;
mod ops;
mod places;
mod statements;

use ax_prog::{Arg, Bin, FunId, Init, Lval, Pexpr, SlotId, VarId};
pub use flow::{Flow, lower};
use sqlite_items::Items;

/// The right side of an assignment, or what a `return` gives. `Last` is the value of the last call.
#[derive(Drop)]
pub enum Rhs {
    Int(SlotId),
    Ptr(Pexpr),
    Last,
}

/// An op. Places are counted from 0 over all code. `Keep`, `Fall`, `Jump` and `End` take no step, and each other op takes
/// one.
#[derive(Drop)]
pub enum Op {
    /// A declaration; its initialiser holds no call.
    Decl(VarId, Init),
    /// The value of the last call is that of a variable that was declared before the call.
    Keep(VarId),
    Assign(Lval, Rhs),
    /// A compound assignment.
    Change(Lval, Bin, SlotId),
    /// Adds 1 where it is `true`, and else subtracts 1.
    Bump(Lval, bool),
    Call(FunId, Items<Arg>),
    /// A `return`. It ends all objects of its call.
    Return(Option<Rhs>),
    /// The end of a function without a `return`. It ends all objects of its call.
    Fall,
    /// Goes to the place where its slot is 0.
    Test(SlotId, usize),
    /// The condition that a `for` leaves out.
    Always,
    Jump(usize),
    /// Ends the object of a local variable.
    End(VarId),
    Read(Lval),
    Print(SlotId),
}

/// A caller that waits: its function, the place where it goes on, how many objects stood when it called, and what its
/// variables named.
#[derive(Drop)]
pub struct Frame {
    pub fun: FunId,
    pub back: usize,
    pub objects: usize,
    pub names: Items<Option<usize>>,
}

/// An op, or the jump of a `break` or `continue` that doesn't know its place yet.
#[derive(Drop)]
pub enum Draft {
    Made(Op),
    Breaks,
    Continues,
}

/// The flat code of a program runs as the program does: from `main` the ops come to the program's ending, output, steps,
/// evaluations of each slot, inputs left and notes, and to nothing else, in plain and in open runs (a law).
pub fn flat_code_runs()
    ensures runs { FlatRuns }
    ensures one { ComesToOne }
{}

/// Each program has flat code (a law).
pub fn programs_have_flat_code()
    ensures { HasFlatCode }
{}
