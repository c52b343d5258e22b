//! What a program means: the store, values and places, the execution of statements, runs, and what it is to pass a test.
//!
//! The definitions stand in `specs/`, each with its section of C11. This file has the values that they speak of,
//! which the machines that run programs keep as well.
#![tactic(auto)]

mod alike;

pub use alike::same_runs;
use ax_prog::SlotId;
use sqlite_items::Items;

/// Why an act is undefined.
#[derive(Clone, Copy, PartialEq, Eq, Debug)]
pub enum Why {
    /// `+`, `-`, `*` or a unary `-` whose result is no `int`.
    Overflow,
    /// `/` or `%` by 0, or with a quotient that is no `int`.
    Division,
    /// A shift by a count outside 0 to 31, or a shift to the left that loses the value.
    Shift,
    /// A read of a cell in which nothing was stored.
    Uninit,
    /// An access through a null pointer, or the moving of one.
    NullAccess,
    /// An access or a move outside the array.
    OutOfBounds,
    /// An access to an object that has ended.
    DeadObject,
    /// The use of the value of a function that ended without one.
    NoValue,
    /// A read where no input is left.
    NoInput,
}

/// An element of an array, or the place after its last one: the array starts at cell `start` of its object, and has
/// `count` elements of `size` cells.
#[derive(Clone, Copy, PartialEq, Eq, Debug)]
pub struct Spot {
    pub object: usize,
    pub start: u32,
    pub size: u32,
    pub count: u32,
    pub index: u32,
}

#[derive(Clone, Copy, PartialEq, Eq, Debug)]
pub enum Pointer {
    Null,
    At(Spot),
}

/// What stands in a cell; `Empty` before the first write.
#[derive(Clone, Copy, PartialEq, Eq, Debug)]
pub enum Cell {
    Empty,
    Int(i32),
    Ptr(Pointer),
}

/// A cell, by its object's number and its number in that object.
#[derive(Clone, Copy, PartialEq, Eq, Debug)]
pub struct Place {
    pub object: usize,
    pub cell: u32,
}

/// An object: whether it lives, and which of the store's cells are its own.
#[derive(Clone, Copy, PartialEq, Eq, Debug)]
pub struct Extent {
    pub live: bool,
    pub first: usize,
    pub count: usize,
}

/// The cells of all objects in order of their beginning, the objects by their numbers, and the object that each
/// variable names now.
#[derive(Drop)]
pub struct Store {
    pub cells: Items<Cell>,
    pub objects: Items<Extent>,
    pub named: Items<Option<usize>>,
}

/// What an open run notes: the truth value of a condition, or an evaluation of a chosen expression and the store in
/// which it began.
#[derive(Drop)]
pub enum Note {
    Met(bool),
    Took(SlotId, Store),
}

/// A run so far: the store, the inputs left, the numbers printed, the steps used and the evaluations begun of each
/// slot. A plain run notes nothing.
#[derive(Drop)]
pub struct State {
    pub store: Store,
    pub inputs: Items<i32>,
    pub output: Items<i32>,
    pub used: u32,
    pub counts: Items<u64>,
    pub notes: Items<Note>,
}

/// Why a plain run stops before its end.
#[derive(Clone, Copy, PartialEq, Eq, Debug)]
pub enum Stop {
    Undefined(Why),
    OutOfSteps,
}

/// How a run ended, with the numbers that it printed.
#[derive(Drop)]
pub enum RunEnd {
    Returned { out: Items<i32>, ret: i32 },
    Undefined { why: Why, out: Items<i32> },
    OutOfSteps { out: Items<i32> },
}

/// A run that is over: its end, the steps used and the evaluations begun of each slot.
#[derive(Drop)]
pub struct Run {
    pub end: RunEnd,
    pub used: u32,
    pub counts: Items<u64>,
}
