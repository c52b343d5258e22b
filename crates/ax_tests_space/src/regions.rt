//! Spaces of a few trees, counted by hand.

ghost use Rattle.std.specs.Prelude.{◌≢◌, AllPairs};

use crate::texts::tree_of;
use ax_prog::nodes::is_small_tree;
use ax_prog::{Bin, Expr, Un};
use ax_space_trees::changes::changed_nodes;
use ax_space_trees::counting::most_nodes;
use ax_space_trees::labels::same_label;
use ax_space_trees::{Label, trees_within};
use sqlite_items::Boxed;
use std::alloc::{AllocError, Global};
use std::test::Fail;

const COMPARISONS: [Label; 3] = [
    Label::Bin(Bin::Lt),
    Label::Bin(Bin::Le),
    Label::Bin(Bin::Gt),
];

/// The numbers of trees of the costs 0 to 7, and of all trees.
fn counts(
    alloc: Global,
    old: &Expr,
    grow: u32,
    labels: &[Label],
    most: u32,
) -> Result<([u32; 8], usize), AllocError>
    requires { AllPairs (λ x y. x ≢ y) labels.now }
{
    let all = trees_within(alloc, old, grow, labels, most)?;
    let mut counts = [0u32; 8];
    for one in all.as_slice() {
        if let Some(count) = counts.get_mut(one.cost as usize) {
            *count = count.saturating_add(1);
        }
    }
    Ok((counts, all.len()))
}

/// `x < y` with the labels `<`, `<=` and `>`: one tree of no changed node and two of one, also where it might grow.
///
/// `(x < y) == (x < y)` with the same labels: `==` stays or becomes one of three, and each `<` stays or becomes one
/// of two, so that there are 1, 7, 16 and 12 trees of the costs 0 to 3.
#[test]
fn comparisons(rt: HostRuntime) -> Result<(), Fail> {
    for (text, grow, most, wanted) in [
        ("x < y", 0, 9, ([1, 2, 0, 0, 0, 0, 0, 0], 3)),
        ("x < y", 1, 9, ([1, 2, 0, 0, 0, 0, 0, 0], 3)),
        ("x < y", 2, 9, ([1, 2, 0, 0, 0, 0, 0, 0], 3)),
        ("(x < y) == (x < y)", 0, 3, ([1, 7, 16, 12, 0, 0, 0, 0], 36)),
        ("(x < y) == (x < y)", 0, 1, ([1, 7, 0, 0, 0, 0, 0, 0], 8)),
    ] {
        let old = tree_of(rt.alloc(), text)?;
        let found = counts(rt.alloc(), &old, grow, &COMPARISONS, most)?;
        assert_eq!(rt; found, wanted, "{text} grown by {grow}");
    }
    Ok(())
}

/// `x` with the labels `0` and binary `-`: `x` and `0`; then `0 - 0`; then `0 - (0 - 0)`, `(0 - 0) - 0` and `(0 - 0) - (0 - 0)`.
#[test]
fn growth(rt: HostRuntime) -> Result<(), Fail> {
    let old = tree_of(rt.alloc(), "x")?;
    let labels = [Label::Num(0), Label::Bin(Bin::Sub)];
    for (grow, wanted) in [
        (0, ([1, 1, 0, 0, 0, 0, 0, 0], 2)),
        (1, ([1, 1, 0, 1, 0, 0, 0, 0], 3)),
        (2, ([1, 1, 0, 1, 0, 2, 0, 1], 6)),
    ] {
        let found = counts(rt.alloc(), &old, grow, &labels, 9)?;
        assert_eq!(rt; found, wanted, "grown by {grow}");
    }
    Ok(())
}

fn changes_of(old: &Expr, new: &Expr) -> Option<u32> {
    if is_small_tree(new) {
        Some(changed_nodes(old, new))
    } else {
        None
    }
}

/// `x < y` against `x`, `y < x`, itself and `-x`.
#[test]
fn changes(rt: HostRuntime) -> Result<(), Fail> {
    let old = tree_of(rt.alloc(), "x < y")?;
    for (text, changed) in [("x", 1), ("y < x", 2), ("x < y", 0)] {
        let new = tree_of(rt.alloc(), text)?;
        assert_eq!(rt; changes_of(&old, &new), Some(changed), "{text}");
    }
    let x = tree_of(rt.alloc(), "x")?;
    let minus = Expr::Un(Un::Neg, Boxed::new(rt.alloc(), x)?);
    assert_eq!(rt; changes_of(&old, &minus), Some(1));
    Ok(())
}

/// With growth 2 each of the three nodes of `x < y` may have six more below it.
#[test]
fn nodes_and_labels(rt: HostRuntime) -> Result<(), Fail> {
    let old = tree_of(rt.alloc(), "x < y")?;
    assert!(rt; is_small_tree(&old));
    assert_eq!(rt; most_nodes(&old, 2), 21);
    assert!(rt; same_label(&Label::Cond, &Label::Cond));
    assert!(rt; !same_label(&Label::Num(1), &Label::Num(2)));
    Ok(())
}
