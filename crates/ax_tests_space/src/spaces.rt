//! Patches of small programs, counted by hand.

ghost use Rattle.std.specs.Prelude.{◌≡◌, ◌≤◌, false, Contains, IfOk};
ghost use Rattle.ax_front.specs.Texts.{IsProgramOfText};
ghost use Rattle.ax_space.specs.Patches.{PatchCost};

use crate::texts::{COMPARISONS, program_of, with_condition};
use ax_front_facts::slots_fit;
use ax_prog::same::same_expr;
use ax_prog::{Bin, Program, Sets, SlotId};
use ax_space::{Mark, Patch, Position, Space, apply, are_chosen};
use ax_space_trees::Label;
use sqlite_items::Items;
use std::alloc::Global;
use std::process::Abort;
use std::test::Fail;

const CONSTANTS: Sets = Sets {
    cmp: false,
    consts: true,
    ..COMPARISONS
};

/// The first expression of a program.
const FIRST: [SlotId; 1] = [SlotId(0)];

/// The space of the condition of a source.
fn space_of(alloc: Global, condition: &str, sets: &Sets, grow: u32) -> Result<Space, Fail>
    requires grow { grow ≤ 20 }
    ensures sets { IfOk result (λ space. space.sets ≡ sets.now) }
{
    let source = with_condition(alloc, condition)?;
    let program = program_of(alloc, &source)?;
    if !are_chosen(&program, &FIRST) {
        return Err(Fail::from("no candidate"));
    }
    let space = Space::new(alloc, &program, &FIRST, sets, grow)?;
    Ok(space)
}

/// Whether each patch costs that.
fn all_cost(space: &Space, patches: &[Patch], cost: u32) -> bool
    requires no_guard { space.now.sets.guard ≡ false }
    requires patches { (patch : Patch) → Contains patches.now patch → PatchCost space.now patch cost }
{
    for patch in patches {
        if patch.cost(space) != cost as u64 {
            return false;
        }
    }
    true
}

/// How many patches there are of that cost, each of which costs that, and no more than any patch may.
fn count(
    rt: &impl Abort,
    alloc: Global,
    space: &Space,
    cost: u32,
    limit: i32,
) -> Result<usize, Fail>
    requires no_guard { space.now.sets.guard ≡ false }
{
    let found = space.patches_of_cost(alloc, cost, limit)?;
    assert!(rt; all_cost(space, found.as_slice(), cost));
    assert!(rt; cost <= space.most());
    Ok(found.len())
}

/// `x < y` with comparisons: one patch of cost 0, five of cost 1, and none of cost 2, also with growth 1.
///
/// `(x < y) == (x < y)` with comparisons: 1, 15, 75 and 125 patches of the costs 0 to 3, together 216.
#[test]
fn comparisons(rt: HostRuntime) -> Result<(), Fail> {
    for (text, grow, cost, patches) in [
        ("x < y", 0, 0, 1),
        ("x < y", 0, 1, 5),
        ("x < y", 0, 2, 0),
        ("x < y", 1, 0, 1),
        ("x < y", 1, 1, 5),
        ("x < y", 1, 2, 0),
        ("(x < y) == (x < y)", 0, 0, 1),
        ("(x < y) == (x < y)", 0, 1, 15),
        ("(x < y) == (x < y)", 0, 2, 75),
        ("(x < y) == (x < y)", 0, 3, 125),
    ] {
        assert!(rt; grow <= 20);
        let space = space_of(rt.alloc(), text, &COMPARISONS, grow)?;
        let found = count(&rt, rt.alloc(), &space, cost, 0)?;
        assert_eq!(rt; found, patches, "{text} at cost {cost}");
    }
    Ok(())
}

/// `3 < 5` with constants up to 9: one patch of cost 0; of cost 1, nine numbers in place of 3 and nine in place of 5
/// and ten in place of the whole; 81 of cost 2. With none allowed, one alone.
#[test]
fn constants(rt: HostRuntime) -> Result<(), Fail> {
    let space = space_of(rt.alloc(), "3 < 5", &CONSTANTS, 0)?;
    for (cost, limit, patches) in [
        (0, 9, 1),
        (1, 9, 28),
        (2, 9, 81),
        (3, 9, 0),
        (0, -1, 1),
        (1, -1, 0),
    ] {
        let found = count(&rt, rt.alloc(), &space, cost, limit)?;
        assert_eq!(rt; found, patches, "up to {limit} at cost {cost}");
    }
    Ok(())
}

/// The program with the first patch of that cost to its condition.
fn first_applied(alloc: Global, source: &str, program: &Program, cost: u32) -> Result<Program, Fail>
    requires { IsProgramOfText source.now program.now }
{
    slots_fit();
    if !are_chosen(program, &FIRST) {
        return Err(Fail::from("no candidate"));
    }
    let space = Space::new(alloc, program, &FIRST, &COMPARISONS, 0)?;
    let found = space.patches_of_cost(alloc, cost, 7)?;
    match found.as_slice() {
        [] => Err(Fail::from("no patch")),
        [patch, ..] => Ok(apply(alloc, program, &space, patch)?),
    }
}

/// `2 < 3` with comparisons: at cost 0 the program stays, and at cost 1 another comparison stands there. The other expressions stay.
#[test]
fn applied(rt: HostRuntime) -> Result<(), Fail> {
    let source = with_condition(rt.alloc(), "2 < 3")?;
    let program = program_of(rt.alloc(), &source)?;
    for (cost, wanted) in [(0, [true, true, true]), (1, [false, true, true])] {
        let changed = first_applied(rt.alloc(), &source, &program, cost)?;
        assert_eq!(rt; (changed.slots.len(), program.slots.len()), (3, 3));
        let slots = changed
            .slots
            .as_slice()
            .iter()
            .zip(program.slots.as_slice());
        for ((new, old), wanted) in slots.zip(wanted) {
            assert_eq!(rt; same_expr(&new.expr, &old.expr), wanted, "at cost {cost}");
        }
    }
    Ok(())
}

/// A space tells its chosen slots.
#[test]
fn chosen(rt: HostRuntime) -> Result<(), Fail> {
    let source = with_condition(rt.alloc(), "x < y")?;
    let program = program_of(rt.alloc(), &source)?;
    let space = space_of(rt.alloc(), "x < y", &COMPARISONS, 2)?;
    assert_eq!(rt; space.chosen().len(), 1);
    assert!(rt; space.chosen() == FIRST.as_slice());
    let old = program.slots.get(0).ok_or("no expression")?;
    assert!(rt; same_expr(&space.slot(0).expr, &old.expr));
    assert_eq!(rt; space.most(), 21);
    assert!(rt; !are_chosen(&program, &[SlotId(0), SlotId(0)]));
    assert!(rt; !are_chosen(&program, &[SlotId(9)]));
    Ok(())
}

/// The positions of a condition with comparisons.
fn positions_of(
    rt: &impl Abort,
    alloc: Global,
    condition: &str,
    grow: u32,
) -> Result<Items<Position>, Fail>
    requires grow { grow ≤ 20 }
{
    let space = space_of(alloc, condition, &COMPARISONS, grow)?;
    assert_eq!(rt; space.chosen().len(), 1);
    Ok(space.positions(alloc, 0)?)
}

/// Whether the position has this word and so many labels, and whether the old tree has a node there.
fn is_at(found: Option<&Position>, word: &[u8], labels: usize, old: bool) -> bool {
    match found {
        Some(position) => position.word.as_slice() == word
            && position.labels.len() == labels
            && position.old == old,
        None => false,
    }
}

/// `x < y` with comparisons: the root with six labels, and `x` and `y`, which have no operands.
///
/// `(x < y) == (x < y)` with comparisons, grown by one letter: seven old positions, then eight new ones without labels.
#[test]
fn positions(rt: HostRuntime) -> Result<(), Fail> {
    let small = positions_of(&rt, rt.alloc(), "x < y", 0)?;
    assert_eq!(rt; small.len(), 3);
    let words: [(usize, &[u8], usize); 3] = [(0, &[], 6), (1, &[1], 1), (2, &[2], 1)];
    for (at, word, labels) in words {
        assert!(rt; is_at(small.get(at), word, labels, true), "at {at}");
    }
    let grown = positions_of(&rt, rt.alloc(), "(x < y) == (x < y)", 1)?;
    assert_eq!(rt; grown.len(), 15);
    let words: [(usize, &[u8], usize, bool); 5] = [
        (2, &[2], 6, true),
        (3, &[1, 1], 7, true),
        (6, &[2, 2], 7, true),
        (7, &[1, 1, 1], 0, false),
        (14, &[2, 2, 2], 0, false),
    ];
    for (at, word, labels, old) in words {
        assert!(rt; is_at(grown.get(at), word, labels, old), "at {at}");
    }
    Ok(())
}

/// The root of `x < y` may be `<`, `==`, `!=`, `<=`, `>`, `>=`.
#[test]
fn labels(rt: HostRuntime) -> Result<(), Fail> {
    let found = positions_of(&rt, rt.alloc(), "x < y", 0)?;
    let root = found.get(0).ok_or("no position")?;
    for (place, wanted) in [
        (0, Bin::Lt),
        (1, Bin::Eq),
        (2, Bin::Ne),
        (3, Bin::Le),
        (5, Bin::Ge),
    ] {
        match root.labels.get(place) {
            Some(Mark::Label(Label::Bin(op))) => assert_eq!(rt; *op, wanted),
            Some(_) | None => assert!(rt; false, "at {place}"),
        }
    }
    Ok(())
}
