//! All patches of a space within a cost: the product of the trees for each slot.
ghost use Rattle.std.specs.Prelude.{◌≡◌, ◌∷◌, [], false, map, flat_map, filter, IfOk};
ghost use Rattle.ax_space.specs.Rows.{IsSlotTrees, IsRows, row, row_within, with_head, has_cost, patch_of};

use crate::labels::allowed_labels;
use crate::{Patch, Row};
use ax_prog::copy::copy_expr;
use ax_prog::{Expr, Sets, Slot};
use ax_space_trees::{Costed, trees_within};
use sqlite_items::Items;
use std::alloc::{AllocError, Global};

/// What bounds the trees of a list: the chosen sets, the growth and the largest cost.
#[derive(Clone, Copy, Debug)]
pub struct Within {
    pub sets: Sets,
    pub grow: u32,
    pub budget: u32,
}

/// A tree for each of these slots, in each way that costs at most the budget and has no new constant above the limit.
pub fn rows(
    alloc: Global,
    slots: &[Slot],
    within: &Within,
    limit: i32,
) -> Result<Items<Row>, AllocError>
    requires { within.now.sets.guard ≡ false }
    ensures { IfOk result (IsRows within.now.sets within.now.grow limit within.now.budget slots.now) }
{
    match slots {
        [] => {
            let all = empty_row(alloc)?;
            Ok(all)
        }
        [slot, rest @ ..] => {
            let heads = slot_trees(alloc, slot, within, limit)?;
            let tails = rows(alloc, rest, within, limit)?;
            let all = rows_over(alloc, heads.as_slice(), tails.as_slice(), within.budget)?;
            Ok(all)
        }
    }
}

// No trees, for no slots.
fn empty_row(alloc: Global) -> Result<Items<Row>, AllocError>
    ensures { IfOk result (λ it. it ≡ row [] 0 ∷ []) }
{
    let mut all = Items::new(alloc);
    all.push(Row {
        trees: Items::new(alloc),
        cost: 0,
    })?;
    Ok(all)
}

fn slot_trees(
    alloc: Global,
    slot: &Slot,
    within: &Within,
    limit: i32,
) -> Result<Items<Costed>, AllocError>
    requires { within.now.sets.guard ≡ false }
    ensures { IfOk result (IsSlotTrees within.now.sets within.now.grow limit within.now.budget slot.now) }
{
    let labels = allowed_labels(alloc, slot, &within.sets, limit)?;
    let all = trees_within(
        alloc,
        &slot.expr,
        within.grow,
        labels.as_slice(),
        within.budget,
    )?;
    Ok(all)
}

#[tactic(auto, using(crate::proofs::Kept::steps))]
fn rows_over(
    alloc: Global,
    heads: &[Costed],
    tails: &[Row],
    budget: u32,
) -> Result<Items<Row>, AllocError>
    ensures { IfOk result (λ it. it ≡ filter (row_within budget) (flat_map (λ head. map (with_head head) tails.now) heads.now)) }
{
    let mut all = Items::new(alloc);
    for head in heads {
        let more = rows_with(alloc, head, tails, budget)?;
        all.append(more)?;
    }
    Ok(all)
}

#[tactic(auto, using(crate::proofs::Kept::steps))]
fn rows_with(
    alloc: Global,
    head: &Costed,
    tails: &[Row],
    budget: u32,
) -> Result<Items<Row>, AllocError>
    ensures { IfOk result (λ it. it ≡ filter (row_within budget) (map (with_head head.now) tails.now)) }
{
    let mut all = Items::new(alloc);
    for tail in tails {
        let whole = head.cost as u64 + tail.cost as u64;
        if whole <= budget as u64 {
            let trees = with_first(alloc, &head.tree, tail.trees.as_slice())?;
            all.push(Row {
                trees,
                cost: whole as u32,
            })?;
        }
    }
    Ok(all)
}

fn with_first(alloc: Global, first: &Expr, rest: &[Expr]) -> Result<Items<Expr>, AllocError>
    ensures { IfOk result (λ it. it ≡ first.now ∷ rest.now) }
{
    let mut all = Items::new(alloc);
    all.push(copy_expr(alloc, first)?)?;
    for tree in rest {
        all.push(copy_expr(alloc, tree)?)?;
    }
    Ok(all)
}

/// The rows of exactly this cost, as patches.
#[tactic(auto, using(crate::proofs::Kept::steps))]
pub fn patches(alloc: Global, rows: &[Row], cost: u32) -> Result<Items<Patch>, AllocError>
    ensures { IfOk result (λ it. it ≡ map patch_of (filter (has_cost cost) rows.now)) }
{
    let mut all = Items::new(alloc);
    for row in rows {
        if row.cost == cost {
            let trees = copy_trees(alloc, row.trees.as_slice())?;
            all.push(Patch { trees })?;
        }
    }
    Ok(all)
}

fn copy_trees(alloc: Global, trees: &[Expr]) -> Result<Items<Expr>, AllocError>
    ensures { IfOk result (λ it. it ≡ trees.now) }
{
    let mut all = Items::new(alloc);
    for tree in trees {
        all.push(copy_expr(alloc, tree)?)?;
    }
    Ok(all)
}
