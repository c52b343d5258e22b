//! The trees around an old one: its positions with their labels, and the list of all trees within a number of changed
//! nodes.
#![tactic(auto)]

pub mod changes;
pub mod counting;
pub mod labels;
pub mod lister;
pub mod region;

ghost use Rattle.std.specs.Prelude.{◌≢◌, AllPairs, IfOk};
ghost use Rattle.ax_space_trees.specs.Within.{IsTreesWithin};

use ax_prog::{Atom, Bin, Expr, Un};
use lister::trees;
use region::region;
use sqlite_items::{Boxed, Items};
use std::alloc::{AllocError, Global};

/// What a node is, without its operands.
#[derive(Drop)]
pub enum Label {
    Num(i32),
    Atom(Atom),
    Un(Un),
    Bin(Bin),
    Cond,
}

/// A label that a position may take, and what it costs there: 0 for the old one, else 1.
#[derive(Drop)]
pub struct Choice {
    pub label: Label,
    pub cost: u32,
}

/// A tree with its number of changed nodes.
#[derive(Drop)]
pub struct Costed {
    pub tree: Expr,
    pub cost: u32,
}

/// A position with its labels and the places of its three operands; `Gone` where the space has no such position.
#[derive(Drop)]
pub enum Place {
    Gone,
    At(Items<Choice>, Boxed<Place>, Boxed<Place>, Boxed<Place>),
}

/// The trees of the space around an old tree that change at most so many of its nodes, each once with its number of
/// changed nodes.
///
/// Their positions are those of the old tree, each extended by words over 1 and 2 of at most `grow` letters; their
/// labels are the old ones at their places, and those of the list, which has none twice.
pub fn trees_within(
    alloc: Global,
    old: &Expr,
    grow: u32,
    labels: &[Label],
    budget: u32,
) -> Result<Items<Costed>, AllocError>
    requires { AllPairs (λ x y. x ≢ y) labels.now }
    ensures { IfOk result (IsTreesWithin labels.now grow old.now budget) }
{
    let place = region(alloc, old, grow, labels)?;
    let all = trees(alloc, &place, budget)?;
    Ok(all)
}
