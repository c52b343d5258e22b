//! The trees of a place within a budget of changed nodes.
ghost use Rattle.std.specs.Prelude.{◌≡◌, IfOk, map, flat_map, filter, ◌∷◌, []};
ghost use Rattle.ax_prog.specs.declared.Expr.TheVariants as of_tree;
ghost use Rattle.ax_space_trees.specs.Trees.{Lists, OneEach, costed};
ghost use Rattle.ax_space_trees.specs.Listed.{within, with_one, with_two, with_three, of_choice, node, listed};

use crate::{Choice, Costed, Label, Place};
use ax_prog::copy::{copy_atom, copy_expr};
use ax_prog::{Bin, Expr, Un};
use sqlite_items::{Boxed, Items};
use std::alloc::{AllocError, Global};

fn unary(
    alloc: Global,
    op: Un,
    cost: u32,
    firsts: &[Costed],
    budget: u32,
) -> Result<Items<Costed>, AllocError>
    ensures { IfOk result (λ it. it ≡ filter (within budget) (map (with_one op cost) firsts.now)) }
{
    let mut all = Items::new(alloc);
    for first in firsts {
        let whole = cost as u64 + first.cost as u64;
        if whole <= budget as u64 {
            let a = copy_expr(alloc, &first.tree)?;
            let tree = Expr::Un(op, Boxed::new(alloc, a)?);
            all.push(Costed {
                tree,
                cost: whole as u32,
            })?;
        }
    }
    Ok(all)
}

fn boxed_copy(alloc: Global, tree: &Expr) -> Result<Boxed<Expr>, AllocError>
    ensures { IfOk result (λ a. a ≡ tree.now) }
{
    Boxed::new(alloc, copy_expr(alloc, tree)?)
}

fn binary_tree(alloc: Global, op: Bin, a: &Expr, b: &Expr) -> Result<Expr, AllocError>
    ensures { IfOk result (λ x. x ≡ of_tree.Bin op a.now b.now) }
{
    let first = boxed_copy(alloc, a)?;
    let second = boxed_copy(alloc, b)?;
    Ok(Expr::Bin(op, first, second))
}

fn condition_tree(alloc: Global, a: &Expr, b: &Expr, c: &Expr) -> Result<Expr, AllocError>
    ensures { IfOk result (λ x. x ≡ of_tree.Cond a.now b.now c.now) }
{
    let first = boxed_copy(alloc, a)?;
    let second = boxed_copy(alloc, b)?;
    let third = boxed_copy(alloc, c)?;
    Ok(Expr::Cond(first, second, third))
}

fn binary_from(
    alloc: Global,
    op: Bin,
    cost: u32,
    first: &Costed,
    seconds: &[Costed],
    budget: u32,
) -> Result<Items<Costed>, AllocError>
    ensures { IfOk result (λ it. it ≡ filter (within budget) (map (with_two op cost first.now) seconds.now)) }
{
    let mut all = Items::new(alloc);
    for second in seconds {
        let whole = cost as u64 + first.cost as u64 + second.cost as u64;
        if whole <= budget as u64 {
            let tree = binary_tree(alloc, op, &first.tree, &second.tree)?;
            all.push(Costed {
                tree,
                cost: whole as u32,
            })?;
        }
    }
    Ok(all)
}

#[tactic(auto, using(crate::proofs::Lists::steps))]
fn binary(
    alloc: Global,
    op: Bin,
    cost: u32,
    firsts: &[Costed],
    seconds: &[Costed],
    budget: u32,
) -> Result<Items<Costed>, AllocError>
    ensures { IfOk result (λ it. it ≡ filter (within budget) (flat_map (λ x. map (with_two op cost x) seconds.now) firsts.now)) }
{
    let mut all = Items::new(alloc);
    for first in firsts {
        let more = binary_from(alloc, op, cost, first, seconds, budget)?;
        all.append(more)?;
    }
    Ok(all)
}

fn conditional_from(
    alloc: Global,
    cost: u32,
    first: &Costed,
    second: &Costed,
    thirds: &[Costed],
    budget: u32,
) -> Result<Items<Costed>, AllocError>
    ensures { IfOk result (λ it. it ≡ filter (within budget) (map (with_three cost first.now second.now) thirds.now)) }
{
    let mut all = Items::new(alloc);
    for third in thirds {
        let whole = cost as u64 + first.cost as u64 + second.cost as u64 + third.cost as u64;
        if whole <= budget as u64 {
            let tree = condition_tree(alloc, &first.tree, &second.tree, &third.tree)?;
            all.push(Costed {
                tree,
                cost: whole as u32,
            })?;
        }
    }
    Ok(all)
}

#[tactic(auto, using(crate::proofs::Lists::steps))]
fn conditional_over(
    alloc: Global,
    cost: u32,
    first: &Costed,
    seconds: &[Costed],
    thirds: &[Costed],
    budget: u32,
) -> Result<Items<Costed>, AllocError>
    ensures { IfOk result (λ it. it ≡ filter (within budget) (flat_map (λ y. map (with_three cost first.now y) thirds.now) seconds.now)) }
{
    let mut all = Items::new(alloc);
    for second in seconds {
        let more = conditional_from(alloc, cost, first, second, thirds, budget)?;
        all.append(more)?;
    }
    Ok(all)
}

#[tactic(auto, using(crate::proofs::Lists::steps))]
fn conditional(
    alloc: Global,
    cost: u32,
    firsts: &[Costed],
    seconds: &[Costed],
    thirds: &[Costed],
    budget: u32,
) -> Result<Items<Costed>, AllocError>
    ensures { IfOk result (λ it. it ≡ filter (within budget) (flat_map (λ x. flat_map (λ y. map (with_three cost x y) thirds.now) seconds.now) firsts.now)) }
{
    let mut all = Items::new(alloc);
    for first in firsts {
        let more = conditional_over(alloc, cost, first, seconds, thirds, budget)?;
        all.append(more)?;
    }
    Ok(all)
}

fn one(alloc: Global, tree: Expr, cost: u32, budget: u32) -> Result<Items<Costed>, AllocError>
    ensures { IfOk result (λ it. it ≡ filter (within budget) (costed tree cost ∷ [])) }
{
    let mut all = Items::new(alloc);
    if cost <= budget {
        all.push(Costed { tree, cost })?;
    }
    Ok(all)
}

fn with_choice(
    alloc: Global,
    choice: &Choice,
    firsts: &[Costed],
    seconds: &[Costed],
    thirds: &[Costed],
    budget: u32,
) -> Result<Items<Costed>, AllocError>
    ensures { IfOk result (λ it. it ≡ filter (within budget) (of_choice firsts.now seconds.now thirds.now choice.now)) }
{
    match &choice.label {
        Label::Num(n) => one(alloc, Expr::Num(*n), choice.cost, budget),
        Label::Atom(a) => {
            let a = copy_atom(alloc, a)?;
            let tree = Expr::Atom(Boxed::new(alloc, a)?);
            one(alloc, tree, choice.cost, budget)
        }
        Label::Un(op) => unary(alloc, *op, choice.cost, firsts, budget),
        Label::Bin(op) => binary(alloc, *op, choice.cost, firsts, seconds, budget),
        Label::Cond => conditional(alloc, choice.cost, firsts, seconds, thirds, budget),
    }
}

#[tactic(auto, using(crate::proofs::Lists::steps))]
fn with_choices(
    alloc: Global,
    choices: &[Choice],
    firsts: &[Costed],
    seconds: &[Costed],
    thirds: &[Costed],
    budget: u32,
) -> Result<Items<Costed>, AllocError>
    ensures { IfOk result (λ it. it ≡ node budget choices.now firsts.now seconds.now thirds.now) }
{
    let mut all = Items::new(alloc);
    for choice in choices {
        let more = with_choice(alloc, choice, firsts, seconds, thirds, budget)?;
        all.append(more)?;
    }
    Ok(all)
}

/// The trees of a place of at most this many changed nodes.
#[tactic(auto, using(crate::proofs::Places::layers))]
pub fn list(alloc: Global, place: &Place, budget: u32) -> Result<Items<Costed>, AllocError>
    ensures { IfOk result (λ it. it ≡ listed budget place.now) }
{
    match place {
        Place::Gone => Ok(Items::new(alloc)),
        Place::At(choices, a, b, c) => {
            let firsts = list(alloc, a.get(), budget)?;
            let seconds = list(alloc, b.get(), budget)?;
            let thirds = list(alloc, c.get(), budget)?;
            with_choices(
                alloc,
                choices.as_slice(),
                firsts.as_slice(),
                seconds.as_slice(),
                thirds.as_slice(),
                budget,
            )
        }
    }
}

/// Exactly the trees of a place of at most this many new labels, each once.
pub fn trees(alloc: Global, place: &Place, budget: u32) -> Result<Items<Costed>, AllocError>
    requires { OneEach place.now }
    ensures { IfOk result (Lists budget place.now) }
{
    let all = list(alloc, place, budget)?;
    Ok(all)
}
