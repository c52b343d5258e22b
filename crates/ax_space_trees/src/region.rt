//! The positions of a space as a tree of places.
ghost use Rattle.std.specs.Prelude.{◌≡◌, ◌≢◌, IfOk, Contains, AllPairs, Some, None};
ghost use Rattle.ax_space_trees.specs.declared.Place.TheVariants as place;
ghost use Rattle.ax_space_trees.specs.Positions.{top};
ghost use Rattle.ax_space_trees.specs.Trees.{OneEach};
ghost use Rattle.ax_space_trees.specs.Region.{In, fresh, IsRegion, IsRegionOf, IsChoices};

use crate::labels::{copy_label, label_of, same_label};
use crate::{Choice, Label, Place};
use ax_prog::Expr;
use sqlite_items::{Boxed, Items};
use std::alloc::{AllocError, Global};

// The labels of a position without an old node.
fn new_choices(alloc: Global, labels: &[Label]) -> Result<Items<Choice>, AllocError>
    requires { AllPairs (λ x y. x ≢ y) labels.now }
    ensures { IfOk result (IsChoices labels.now None) }
{
    let mut all = Items::new(alloc);
    for label in labels {
        let copy = copy_label(alloc, label)?;
        all.push(Choice {
            label: copy,
            cost: 1,
        })?;
    }
    Ok(all)
}

// The labels of a position with this old label.
fn choices(alloc: Global, own: &Label, labels: &[Label]) -> Result<Items<Choice>, AllocError>
    requires { AllPairs (λ x y. x ≢ y) labels.now }
    ensures { IfOk result (IsChoices labels.now (Some own.now)) }
{
    let mut all = Items::new(alloc);
    let first = copy_label(alloc, own)?;
    all.push(Choice {
        label: first,
        cost: 0,
    })?;
    for label in labels {
        if !same_label(label, own) {
            let copy = copy_label(alloc, label)?;
            all.push(Choice {
                label: copy,
                cost: 1,
            })?;
        }
    }
    Ok(all)
}

// The labels of a position with this old node.
fn old_choices(alloc: Global, old: &Expr, labels: &[Label]) -> Result<Items<Choice>, AllocError>
    requires { AllPairs (λ x y. x ≢ y) labels.now }
    ensures { IfOk result (IsChoices labels.now (Some (top old.now))) }
{
    let own = label_of(alloc, old)?;
    choices(alloc, &own, labels)
}

// A position with two operands at most.
fn placed(
    alloc: Global,
    choices: Items<Choice>,
    first: Place,
    second: Place,
) -> Result<Place, AllocError>
    ensures { IfOk result (λ p. p ≡ place.At choices first second place.Gone) }
{
    let first = Boxed::new(alloc, first)?;
    let second = Boxed::new(alloc, second)?;
    let gone = Boxed::new(alloc, Place::Gone)?;
    Ok(Place::At(choices, first, second, gone))
}

// The place of a position without an old node, with so many further letters.
#[tactic(auto, using(crate::proofs::RegionSteps::layers))]
fn fresh_place(alloc: Global, room: u32, grow: u32, labels: &[Label]) -> Result<Place, AllocError>
    requires { AllPairs (λ x y. x ≢ y) labels.now }
    ensures region { IfOk result (IsRegion (Contains labels.now) grow (In None room)) }
    ensures one { IfOk result OneEach }
{
    if room == 0 {
        let leaf = placed(alloc, new_choices(alloc, labels)?, Place::Gone, Place::Gone)?;
        return Ok(leaf);
    }
    let first = fresh_place(alloc, room - 1, grow, labels)?;
    let second = fresh_place(alloc, room - 1, grow, labels)?;
    let grown = placed(alloc, new_choices(alloc, labels)?, first, second)?;
    Ok(grown)
}

// The place of a first or second operand that the old tree has not.
fn grown_place(alloc: Global, grow: u32, labels: &[Label]) -> Result<Place, AllocError>
    requires { AllPairs (λ x y. x ≢ y) labels.now }
    ensures region { IfOk result (IsRegion (Contains labels.now) grow (fresh grow 1)) }
    ensures one { IfOk result OneEach }
{
    if grow == 0 {
        return Ok(Place::Gone);
    }
    let place = fresh_place(alloc, grow - 1, grow, labels)?;
    Ok(place)
}

fn place_at(
    alloc: Global,
    choices: Items<Choice>,
    first: Place,
    second: Place,
    third: Place,
) -> Result<Place, AllocError>
    ensures { IfOk result (λ it. it ≡ Place.At choices first second third) }
{
    let first = Boxed::new(alloc, first)?;
    let second = Boxed::new(alloc, second)?;
    let third = Boxed::new(alloc, third)?;
    Ok(Place::At(choices, first, second, third))
}

/// The region of an old tree: the positions of its space with this growth, each with its old label and those of the
/// list, which has none twice.
pub fn region(alloc: Global, old: &Expr, grow: u32, labels: &[Label]) -> Result<Place, AllocError>
    requires { AllPairs (λ x y. x ≢ y) labels.now }
    ensures region { IfOk result (IsRegionOf old.now grow labels.now) }
    ensures one { IfOk result OneEach }
{
    let choices = old_choices(alloc, old, labels)?;
    match old {
        Expr::Num(_) => {
            let first = grown_place(alloc, grow, labels)?;
            let second = grown_place(alloc, grow, labels)?;
            let place = place_at(alloc, choices, first, second, Place::Gone)?;
            Ok(place)
        }
        Expr::Atom(_) => {
            let first = grown_place(alloc, grow, labels)?;
            let second = grown_place(alloc, grow, labels)?;
            let place = place_at(alloc, choices, first, second, Place::Gone)?;
            Ok(place)
        }
        Expr::Un(_, a) => {
            let first = region(alloc, a.get(), grow, labels)?;
            let second = grown_place(alloc, grow, labels)?;
            let place = place_at(alloc, choices, first, second, Place::Gone)?;
            Ok(place)
        }
        Expr::Bin(_, a, b) => {
            let first = region(alloc, a.get(), grow, labels)?;
            let second = region(alloc, b.get(), grow, labels)?;
            let place = place_at(alloc, choices, first, second, Place::Gone)?;
            Ok(place)
        }
        Expr::Cond(f, a, b) => {
            let first = region(alloc, f.get(), grow, labels)?;
            let second = region(alloc, a.get(), grow, labels)?;
            let third = region(alloc, b.get(), grow, labels)?;
            let place = place_at(alloc, choices, first, second, third)?;
            Ok(place)
        }
    }
}
