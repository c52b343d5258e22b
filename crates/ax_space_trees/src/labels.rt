//! Labels: copies, equality, and the label at a tree's root.
ghost use Rattle.std.specs.Prelude.{◌≡◌, ◌↔◌, IfOk, IsTrue};
ghost use Rattle.ax_space_trees.specs.Positions.{top};

use crate::Label;
use ax_prog::copy::copy_atom;
use ax_prog::same::same_atom;
use ax_prog::{Atom, Bin, Expr, Un};
use std::alloc::{AllocError, Global};

pub fn copy_label(alloc: Global, label: &Label) -> Result<Label, AllocError>
    ensures { IfOk result (λ it. it ≡ label.now) }
{
    match label {
        Label::Num(n) => Ok(Label::Num(*n)),
        Label::Atom(a) => Ok(Label::Atom(copy_atom(alloc, a)?)),
        Label::Un(op) => Ok(Label::Un(*op)),
        Label::Bin(op) => Ok(Label::Bin(*op)),
        Label::Cond => Ok(Label::Cond),
    }
}

/// The label at the root of a tree.
#[tactic(auto, using(crate::proofs::Tops::tops))]
pub fn label_of(alloc: Global, tree: &Expr) -> Result<Label, AllocError>
    ensures { IfOk result (λ it. it ≡ top tree.now) }
{
    match tree {
        Expr::Num(n) => Ok(Label::Num(*n)),
        Expr::Atom(a) => Ok(Label::Atom(copy_atom(alloc, a.get())?)),
        Expr::Un(op, _) => Ok(Label::Un(*op)),
        Expr::Bin(op, _, _) => Ok(Label::Bin(*op)),
        Expr::Cond(_, _, _) => Ok(Label::Cond),
    }
}

fn is_number(label: &Label, number: i32) -> bool
    ensures { IsTrue result ↔ (label.now ≡ Label.Num number) }
{
    match label {
        Label::Num(n) => *n == number,
        Label::Atom(_) | Label::Un(_) | Label::Bin(_) | Label::Cond => false,
    }
}

fn is_atom(label: &Label, atom: &Atom) -> bool
    ensures { IsTrue result ↔ (label.now ≡ Label.Atom atom.now) }
{
    match label {
        Label::Atom(a) => same_atom(a, atom),
        Label::Num(_) | Label::Un(_) | Label::Bin(_) | Label::Cond => false,
    }
}

fn is_unary(label: &Label, un: Un) -> bool
    ensures { IsTrue result ↔ (label.now ≡ Label.Un un) }
{
    match label {
        Label::Un(op) => *op == un,
        Label::Num(_) | Label::Atom(_) | Label::Bin(_) | Label::Cond => false,
    }
}

fn is_binary(label: &Label, bin: Bin) -> bool
    ensures { IsTrue result ↔ (label.now ≡ Label.Bin bin) }
{
    match label {
        Label::Bin(op) => *op == bin,
        Label::Num(_) | Label::Atom(_) | Label::Un(_) | Label::Cond => false,
    }
}

fn is_conditional(label: &Label) -> bool
    ensures { IsTrue result ↔ (label.now ≡ Label.Cond) }
{
    match label {
        Label::Cond => true,
        Label::Num(_) | Label::Atom(_) | Label::Un(_) | Label::Bin(_) => false,
    }
}

pub fn same_label(a: &Label, b: &Label) -> bool
    ensures { IsTrue result ↔ (a.now ≡ b.now) }
{
    match b {
        Label::Num(n) => is_number(a, *n),
        Label::Atom(atom) => is_atom(a, atom),
        Label::Un(op) => is_unary(a, *op),
        Label::Bin(op) => is_binary(a, *op),
        Label::Cond => is_conditional(a),
    }
}
