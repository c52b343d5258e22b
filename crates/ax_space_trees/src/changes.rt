//! Changed nodes of a new tree against an old one.
ghost use Rattle.std.specs.Prelude.{◌≡◌, ◌∷◌, [], ◌<◌, ◌≤◌, ◌^◌, ◌↔◌, IsTrue, Some};
ghost use Rattle.std.specs.Option.{option_copied};
ghost use Rattle.ax_prog.specs.Nodes.{nodes};
ghost use Rattle.ax_space_trees.specs.Positions.{top, operand, positions};
ghost use Rattle.ax_space_trees.specs.Space.{Differing, Changes};

use ax_prog::Expr;
use ax_prog::same::same_atom;

/// The changed nodes: the positions of the new tree at which the old tree has no node or another label. The new tree
/// has fewer nodes than 2 to the 32nd.
pub fn changed_nodes(old: &Expr, new: &Expr) -> u32
    requires { nodes new.now < 2 ^ 32 }
    ensures { Changes old.now new.now result }
{
    changed(new, Some(old))
}

fn changed(new: &Expr, old: Option<&Expr>) -> u32
    requires { nodes new.now < 2 ^ 32 }
    ensures count { Differing (Some new.now) (option_copied old.entry) (positions new.now) result }
    ensures small { result ≤ nodes new.now }
{
    let here = changed_root(new, old);
    match new {
        Expr::Num(_) => here,
        Expr::Atom(_) => here,
        Expr::Un(_, a) => here + changed(a.get(), first_of(old)),
        Expr::Bin(_, a, b) => {
            let left = changed(a.get(), first_of(old));
            let right = changed(b.get(), second_of(old));
            here + (left + right)
        }
        Expr::Cond(f, a, b) => {
            let test = changed(f.get(), first_of(old));
            let left = changed(a.get(), second_of(old));
            let right = changed(b.get(), third_of(old));
            here + (test + (left + right))
        }
    }
}

// 1 where the old tree has no node here or another label, else 0.
fn changed_root(new: &Expr, old: Option<&Expr>) -> u32
    ensures count { Differing (Some new.now) (option_copied old.entry) ([] ∷ []) result }
    ensures small { result ≤ 1 }
{
    match old {
        None => 1,
        Some(old) => { if same_root(new, old) { 0 } else { 1 } }
    }
}

#[tactic(auto, using(crate::proofs::Tops::tops))]
fn same_root(new: &Expr, old: &Expr) -> bool
    ensures { IsTrue result ↔ (top new.now ≡ top old.now) }
{
    match new {
        Expr::Num(m) => match old {
            Expr::Num(n) => *m == *n,
            Expr::Atom(_) | Expr::Un(_, _) | Expr::Bin(_, _, _) | Expr::Cond(_, _, _) => false,
        },
        Expr::Atom(a) => match old {
            Expr::Atom(b) => same_atom(a.get(), b.get()),
            Expr::Num(_) | Expr::Un(_, _) | Expr::Bin(_, _, _) | Expr::Cond(_, _, _) => false,
        },
        Expr::Un(op, _) => match old {
            Expr::Un(with, _) => *op == *with,
            Expr::Num(_) | Expr::Atom(_) | Expr::Bin(_, _, _) | Expr::Cond(_, _, _) => false,
        },
        Expr::Bin(op, _, _) => match old {
            Expr::Bin(with, _, _) => *op == *with,
            Expr::Num(_) | Expr::Atom(_) | Expr::Un(_, _) | Expr::Cond(_, _, _) => false,
        },
        Expr::Cond(_, _, _) => match old {
            Expr::Cond(_, _, _) => true,
            Expr::Num(_) | Expr::Atom(_) | Expr::Un(_, _) | Expr::Bin(_, _, _) => false,
        },
    }
}

fn first_of(tree: Option<&Expr>) -> Option<&Expr>
    ensures { option_copied result ≡ operand (option_copied tree.entry) 1 }
{
    match tree {
        None => None,
        Some(tree) => first(tree),
    }
}

fn second_of(tree: Option<&Expr>) -> Option<&Expr>
    ensures { option_copied result ≡ operand (option_copied tree.entry) 2 }
{
    match tree {
        None => None,
        Some(tree) => second(tree),
    }
}

fn third_of(tree: Option<&Expr>) -> Option<&Expr>
    ensures { option_copied result ≡ operand (option_copied tree.entry) 3 }
{
    match tree {
        None => None,
        Some(tree) => third(tree),
    }
}

#[tactic(auto, using(ax_prog::proofs::Trees::operand_layers))]
fn first(tree: &Expr) -> Option<&Expr>
    ensures { option_copied result ≡ operand (Some tree.now) 1 }
{
    match tree {
        Expr::Num(_) | Expr::Atom(_) => None,
        Expr::Un(_, a) => Some(a.get()),
        Expr::Bin(_, a, _) => Some(a.get()),
        Expr::Cond(f, _, _) => Some(f.get()),
    }
}

#[tactic(auto, using(ax_prog::proofs::Trees::operand_layers))]
fn second(tree: &Expr) -> Option<&Expr>
    ensures { option_copied result ≡ operand (Some tree.now) 2 }
{
    match tree {
        Expr::Num(_) | Expr::Atom(_) => None,
        Expr::Un(_, _) => None,
        Expr::Bin(_, _, b) => Some(b.get()),
        Expr::Cond(_, a, _) => Some(a.get()),
    }
}

#[tactic(auto, using(ax_prog::proofs::Trees::operand_layers))]
fn third(tree: &Expr) -> Option<&Expr>
    ensures { option_copied result ≡ operand (Some tree.now) 3 }
{
    match tree {
        Expr::Num(_) | Expr::Atom(_) => None,
        Expr::Un(_, _) => None,
        Expr::Bin(_, _, _) => None,
        Expr::Cond(_, _, b) => Some(b.get()),
    }
}
