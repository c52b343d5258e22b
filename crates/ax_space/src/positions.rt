//! The positions of a slot's space, each with the labels that it offers.
ghost use Rattle.std.specs.Prelude.{◌≡◌, ◌↔◌, ◌≤◌, ◌∷◌, [], IfOk, OnOk, IsTrue, Contains, Some, is_some, map, if◌then◌else◌};
ghost use Rattle.std.specs.Option.{option_copied};
ghost use Rattle.std.specs.List.{All};
ghost use Rattle.ax_prog.specs.Nodes.{nodes};
ghost use Rattle.ax_space_trees.specs.Positions.{labelled};
ghost use Rattle.ax_space.specs.Labels.{variable};
ghost use Rattle.ax_space.specs.Positions.{arity, HasOperands, Firsts, IsFirstsNext, old_marks, atom_in, atoms_of, set_marks, IsDescribed, ArePositions};

use crate::labels::{atom_labels, chosen_operators};
use crate::words::{is_position, longer_word, part_at, position_words};
use crate::{Mark, Position};
use ax_prog::copy::copy_atom;
use ax_prog::{Atom, Expr, Lval, Sets, Slot, Span, VarId};
use ax_space_trees::Label;
use ax_space_trees::labels::{copy_label, label_of, same_label};
use sqlite_items::Items;
use std::alloc::{AllocError, Global};

/// The positions of a slot's space, by length and then by digits, with their labels.
pub fn slot_positions(
    alloc: Global,
    slot: &Slot,
    sets: &Sets,
    grow: u32,
) -> Result<Items<Position>, AllocError>
    requires small { nodes slot.now.expr ≤ 31 }
    requires grown { grow ≤ 20 }
    ensures { IfOk result (ArePositions sets.now grow slot.now) }
{
    let words = position_words(alloc, &slot.expr, grow)?;
    let all = described(alloc, slot, sets, grow, words.as_slice())?;
    Ok(all)
}

// The positions of these words, with their labels.
fn described(
    alloc: Global,
    slot: &Slot,
    sets: &Sets,
    grow: u32,
    words: &[Items<u8>],
) -> Result<Items<Position>, AllocError>
    ensures words { IfOk result (λ it. map (λ p. p.word) it ≡ words.now) }
    ensures described { IfOk result (All (IsDescribed sets.now grow slot.now)) }
{
    let mut all = Items::new(alloc);
    for word in words {
        let own = position(alloc, slot, sets, grow, word.as_slice())?;
        all.push(own)?;
    }
    Ok(all)
}

fn position(
    alloc: Global,
    slot: &Slot,
    sets: &Sets,
    grow: u32,
    word: &[u8],
) -> Result<Position, AllocError>
    ensures word { IfOk result (λ it. it.word ≡ word.now) }
    ensures described { IfOk result (IsDescribed sets.now grow slot.now) }
{
    let part = part_at(Some(&slot.expr), word);
    let mut marks = marks_of_old(alloc, part)?;
    let others = marks_of_sets(alloc, slot, sets)?;
    marks.append(others)?;
    let labels = kept_marks(alloc, &slot.expr, grow, word, marks.as_slice())?;
    let word = Items::from_slice(alloc, word)?;
    let old = has_node(part);
    Ok(Position { word, labels, old })
}

fn has_node(part: Option<&Expr>) -> bool
    ensures { result ≡ is_some (option_copied part.entry) }
{
    match part {
        Some(_) => true,
        None => false,
    }
}

// The label of the old tree, if it has a node there.
fn marks_of_old(alloc: Global, part: Option<&Expr>) -> Result<Items<Mark>, AllocError>
    ensures { IfOk result (λ it. it ≡ old_marks (labelled (option_copied part.entry))) }
{
    let mut all = Items::new(alloc);
    if let Some(tree) = part {
        all.push(Mark::Label(label_of(alloc, tree)?))?;
    }
    Ok(all)
}

// The labels of the chosen sets, in their order.
fn marks_of_sets(alloc: Global, slot: &Slot, sets: &Sets) -> Result<Items<Mark>, AllocError>
    ensures { IfOk result (λ it. it ≡ set_marks sets.now slot.now) }
{
    let mut labels = chosen_operators(alloc, sets)?;
    let atoms = atoms_of_sets(alloc, slot, sets)?;
    labels.append(atoms)?;
    let mut all = marks_of(alloc, labels.as_slice())?;
    let constants = constant(alloc, sets)?;
    all.append(constants)?;
    Ok(all)
}

fn atoms_of_sets(alloc: Global, slot: &Slot, sets: &Sets) -> Result<Items<Label>, AllocError>
    ensures { IfOk result (λ it. it ≡ (if sets.now.vars then map (λ a. Label.Atom a) (atoms_of slot.now) else [])) }
{
    if sets.vars {
        let atoms = atoms_in_order(alloc, slot)?;
        let labels = atom_labels(alloc, atoms.as_slice())?;
        return Ok(labels);
    }
    Ok(Items::new(alloc))
}

fn constant(alloc: Global, sets: &Sets) -> Result<Items<Mark>, AllocError>
    ensures { IfOk result (λ it. it ≡ (if sets.now.consts then Mark.Const ∷ [] else [])) }
{
    let mut all = Items::new(alloc);
    if sets.consts {
        all.push(Mark::Const)?;
        return Ok(all);
    }
    Ok(all)
}

fn marks_of(alloc: Global, labels: &[Label]) -> Result<Items<Mark>, AllocError>
    ensures { IfOk result (λ it. it ≡ map (λ l. Mark.Label l) labels.now) }
{
    let mut all = Items::new(alloc);
    for label in labels {
        all.push(Mark::Label(copy_label(alloc, label)?))?;
    }
    Ok(all)
}

// The variables in scope in order of declaration, then the atoms of the expression in source order.
fn atoms_in_order(alloc: Global, slot: &Slot) -> Result<Items<Atom>, AllocError>
    ensures { IfOk result (λ it. it ≡ atoms_of slot.now) }
{
    let mut all = variable_atoms(alloc, slot.scope.as_slice())?;
    let own = own_atoms(alloc, slot.atoms.as_slice())?;
    all.append(own)?;
    Ok(all)
}

fn variable_atoms(alloc: Global, scope: &[VarId]) -> Result<Items<Atom>, AllocError>
    ensures { IfOk result (λ it. it ≡ map variable scope.now) }
{
    let mut all = Items::new(alloc);
    for id in scope {
        all.push(Atom::Read(Lval::Var(*id)))?;
    }
    Ok(all)
}

fn own_atoms(alloc: Global, atoms: &[(Atom, Span)]) -> Result<Items<Atom>, AllocError>
    ensures { IfOk result (λ it. it ≡ map atom_in atoms.now) }
{
    let mut all = Items::new(alloc);
    for pair in atoms {
        all.push(copy_atom(alloc, &pair.0)?)?;
    }
    Ok(all)
}

// Of these labels those whose operands have positions, each once.
fn kept_marks(
    alloc: Global,
    old: &Expr,
    grow: u32,
    word: &[u8],
    marks: &[Mark],
) -> Result<Items<Mark>, AllocError>
    ensures { IfOk result (Firsts (HasOperands grow old.now word.now) marks.now) }
{
    let mut all = Items::new(alloc);
    for mark in marks {
        add_mark(alloc, old, grow, word, &mut all, mark)?;
    }
    Ok(all)
}

// Adds a label whose operands have positions, if it isn't there yet.
fn add_mark(
    alloc: Global,
    old: &Expr,
    grow: u32,
    word: &[u8],
    all: &mut Items<Mark>,
    mark: &Mark,
) -> Result<(), AllocError>
    ensures { OnOk result (IsFirstsNext (HasOperands grow old.now word.now) all.old mark.now all.new) }
{
    if has_mark(all.as_slice(), mark) {
        return Ok(());
    }
    if has_operands(alloc, old, grow, word, mark)? {
        all.push(copy_mark(alloc, mark)?)?;
    }
    Ok(())
}

// Whether each operand of the label has a position in the space.
fn has_operands(
    alloc: Global,
    old: &Expr,
    grow: u32,
    word: &[u8],
    mark: &Mark,
) -> Result<bool, AllocError>
    ensures { IfOk result (λ it. IsTrue it ↔ HasOperands grow old.now word.now mark.now) }
{
    for before in 0..operand_count(mark) {
        let below = longer_word(alloc, word, before + 1)?;
        if !is_position(old, grow, below.as_slice()) {
            return Ok(false);
        }
    }
    Ok(true)
}

// The number of operands that a label takes.
fn operand_count(mark: &Mark) -> u8
    ensures count { result ≡ arity mark.now }
    ensures small { result ≤ 3 }
{
    match mark {
        Mark::Const => 0,
        Mark::Label(label) => match label {
            Label::Num(_) | Label::Atom(_) => 0,
            Label::Un(_) => 1,
            Label::Bin(_) => 2,
            Label::Cond => 3,
        },
    }
}

fn has_mark(all: &[Mark], mark: &Mark) -> bool
    ensures { IsTrue result ↔ Contains all.now mark.now }
{
    for one in all {
        if same_mark(one, mark) {
            return true;
        }
    }
    false
}

fn same_mark(a: &Mark, b: &Mark) -> bool
    ensures { IsTrue result ↔ (a.now ≡ b.now) }
{
    match b {
        Mark::Const => is_constant(a),
        Mark::Label(label) => is_label(a, label),
    }
}

fn is_constant(mark: &Mark) -> bool
    ensures { IsTrue result ↔ (mark.now ≡ Mark.Const) }
{
    match mark {
        Mark::Const => true,
        Mark::Label(_) => false,
    }
}

fn is_label(mark: &Mark, label: &Label) -> bool
    ensures { IsTrue result ↔ (mark.now ≡ Mark.Label label.now) }
{
    match mark {
        Mark::Const => false,
        Mark::Label(own) => same_label(own, label),
    }
}

fn copy_mark(alloc: Global, mark: &Mark) -> Result<Mark, AllocError>
    ensures { IfOk result (λ it. it ≡ mark.now) }
{
    match mark {
        Mark::Const => Ok(Mark::Const),
        Mark::Label(label) => Ok(Mark::Label(copy_label(alloc, label)?)),
    }
}
