//! The labels that the chosen sets allow in a slot.
ghost use Rattle.std.specs.Prelude.{◌≡◌, ◌↔◌, ◌≤◌, [], map, filter, IfOk, OnOk, IsTrue, Contains};
ghost use Rattle.ax_space.specs.Sets.{has_un, has_bin};
ghost use Rattle.ax_space.specs.Labels.{has_operator, operator_label, operator_labels, IsCollected, IsAdded, IsChosenAtom, IsChosenNumber, IsNumberBelow};
ghost use Rattle.ax_space.specs.Rows.{IsPart, IsAllowedWithin};

use crate::Operator;
use ax_prog::copy::copy_atom;
use ax_prog::same::same_atom;
use ax_prog::{Atom, Bin, Lval, Sets, Slot, Span, Un, VarId};
use ax_space_trees::Label;
use sqlite_items::Items;
use std::alloc::{AllocError, Global};

/// The operators in the order in which labels are listed.
const OPERATORS: [Operator; 21] = [
    Operator::Binary(Bin::Eq),
    Operator::Binary(Bin::Ne),
    Operator::Binary(Bin::Lt),
    Operator::Binary(Bin::Le),
    Operator::Binary(Bin::Gt),
    Operator::Binary(Bin::Ge),
    Operator::Binary(Bin::And),
    Operator::Binary(Bin::Or),
    Operator::Unary(Un::Not),
    Operator::Binary(Bin::Add),
    Operator::Binary(Bin::Sub),
    Operator::Unary(Un::Neg),
    Operator::Binary(Bin::Mul),
    Operator::Binary(Bin::Div),
    Operator::Binary(Bin::Rem),
    Operator::Binary(Bin::BitAnd),
    Operator::Binary(Bin::BitOr),
    Operator::Binary(Bin::BitXor),
    Operator::Unary(Un::BitNot),
    Operator::Binary(Bin::Shl),
    Operator::Binary(Bin::Shr),
];

/// The labels that the chosen sets allow in a slot, with the constants from 0 to `limit`, each label once.
pub fn allowed_labels(
    alloc: Global,
    slot: &Slot,
    sets: &Sets,
    limit: i32,
) -> Result<Items<Label>, AllocError>
    ensures { IfOk result (IsPart (IsAllowedWithin sets.now slot.now limit)) }
{
    let mut all = chosen_operators(alloc, sets)?;
    let atoms = chosen_atoms(alloc, slot, sets)?;
    let numbers = chosen_numbers(alloc, sets, limit)?;
    all.append(atoms)?;
    all.append(numbers)?;
    Ok(all)
}

pub fn chosen_operators(alloc: Global, sets: &Sets) -> Result<Items<Label>, AllocError>
    ensures { IfOk result (λ it. it ≡ operator_labels sets.now) }
{
    let all = chosen_among(alloc, sets, &OPERATORS)?;
    Ok(all)
}

#[tactic(auto, using(crate::proofs::Kept::steps))]
fn chosen_among(
    alloc: Global,
    sets: &Sets,
    operators: &[Operator],
) -> Result<Items<Label>, AllocError>
    ensures { IfOk result (λ it. it ≡ map operator_label (filter (has_operator sets.now) operators.now)) }
{
    let mut all = Items::new(alloc);
    for operator in operators {
        if has(sets, *operator) {
            all.push(label(*operator))?;
        }
    }
    Ok(all)
}

fn has(sets: &Sets, operator: Operator) -> bool
    ensures { result ≡ has_operator sets.now operator }
{
    match operator {
        Operator::Unary(op) => has_unary(sets, op),
        Operator::Binary(op) => has_binary(sets, op),
    }
}

fn has_unary(sets: &Sets, op: Un) -> bool
    ensures { result ≡ has_un sets.now op }
{
    match op {
        Un::Neg => sets.arith,
        Un::Not => sets.logic,
        Un::BitNot => sets.bits,
    }
}

fn has_binary(sets: &Sets, op: Bin) -> bool
    ensures { result ≡ has_bin sets.now op }
{
    match op {
        Bin::Eq | Bin::Ne | Bin::Lt | Bin::Le | Bin::Gt | Bin::Ge => sets.cmp,
        Bin::And | Bin::Or => sets.logic,
        Bin::Add | Bin::Sub => sets.arith,
        Bin::Mul | Bin::Div | Bin::Rem => sets.mul,
        Bin::BitAnd | Bin::BitOr | Bin::BitXor | Bin::Shl | Bin::Shr => sets.bits,
    }
}

fn label(operator: Operator) -> Label
    ensures { result ≡ operator_label operator }
{
    match operator {
        Operator::Unary(op) => Label::Un(op),
        Operator::Binary(op) => Label::Bin(op),
    }
}

fn chosen_atoms(alloc: Global, slot: &Slot, sets: &Sets) -> Result<Items<Label>, AllocError>
    ensures { IfOk result (IsPart (IsChosenAtom sets.now slot.now)) }
{
    if sets.vars {
        let atoms = slot_atoms(alloc, slot.scope.as_slice(), slot.atoms.as_slice())?;
        let labels = atom_labels(alloc, atoms.as_slice())?;
        return Ok(labels);
    }
    Ok(Items::new(alloc))
}

pub fn atom_labels(alloc: Global, atoms: &[Atom]) -> Result<Items<Label>, AllocError>
    ensures { IfOk result (λ it. it ≡ map (λ a. Label.Atom a) atoms.now) }
{
    let mut all = Items::new(alloc);
    for atom in atoms {
        all.push(Label::Atom(copy_atom(alloc, atom)?))?;
    }
    Ok(all)
}

// The variables in scope in order of declaration, then the other atoms in source order, each once.
fn slot_atoms(
    alloc: Global,
    scope: &[VarId],
    atoms: &[(Atom, Span)],
) -> Result<Items<Atom>, AllocError>
    ensures { IfOk result (IsCollected scope.now atoms.now) }
{
    let mut all = variables(alloc, scope)?;
    for pair in atoms {
        add_atom(alloc, &mut all, &pair.0)?;
    }
    Ok(all)
}

fn variables(alloc: Global, scope: &[VarId]) -> Result<Items<Atom>, AllocError>
    ensures { IfOk result (IsCollected scope.now []) }
{
    let mut all = Items::new(alloc);
    for id in scope {
        add_atom(alloc, &mut all, &Atom::Read(Lval::Var(*id)))?;
    }
    Ok(all)
}

// Adds an atom that isn't there yet.
fn add_atom(alloc: Global, all: &mut Items<Atom>, atom: &Atom) -> Result<(), AllocError>
    ensures { OnOk result (IsAdded all.old atom.now all.new) }
{
    if has_atom(all.as_slice(), atom) {
        return Ok(());
    }
    all.push(copy_atom(alloc, atom)?)?;
    Ok(())
}

fn has_atom(all: &[Atom], atom: &Atom) -> bool
    ensures { IsTrue result ↔ Contains all.now atom.now }
{
    for one in all {
        if same_atom(one, atom) {
            return true;
        }
    }
    false
}

fn chosen_numbers(alloc: Global, sets: &Sets, limit: i32) -> Result<Items<Label>, AllocError>
    ensures { IfOk result (IsPart (IsChosenNumber sets.now limit)) }
{
    if sets.consts && limit >= 0 {
        let numbers = numbers_below(alloc, limit.unsigned_abs() + 1)?;
        return Ok(numbers);
    }
    Ok(Items::new(alloc))
}

// The numbers from 0 on, so many.
fn numbers_below(alloc: Global, count: u32) -> Result<Items<Label>, AllocError>
    requires { count ≤ 2147483648 }
    ensures { IfOk result (IsPart (IsNumberBelow count)) }
{
    let mut all = Items::new(alloc);
    for number in 0..count {
        all.push(Label::Num(number as i32))?;
    }
    Ok(all)
}
