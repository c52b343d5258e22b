//! The number of nodes of a tree.
ghost use Rattle.std.specs.Prelude.{◌≡◌, ◌-◌, ◌^◌, min};
ghost use Rattle.ax_prog.specs.Nodes.{nodes};
ghost use Rattle.ax_prog.specs.Candidates.{is_small};

use crate::Expr;

/// The nodes of a tree, or 4294967295 where there are more.
#[tactic(auto, using(crate::proofs::Trees::node_layers))]
pub fn node_count(tree: &Expr) -> u32
    ensures { result ≡ min (nodes tree.now) (2 ^ 32 - 1) }
{
    match tree {
        Expr::Num(_) => 1,
        Expr::Atom(_) => 1,
        Expr::Un(_, a) => capped(node_count(a.get()) as u64 + 1),
        Expr::Bin(_, a, b) => {
            let a = node_count(a.get()) as u64;
            capped(a + node_count(b.get()) as u64 + 1)
        }
        Expr::Cond(f, a, b) => {
            let f = node_count(f.get()) as u64;
            let a = node_count(a.get()) as u64;
            capped(f + a + node_count(b.get()) as u64 + 1)
        }
    }
}

fn capped(n: u64) -> u32
    ensures { result ≡ min n (2 ^ 32 - 1) }
{
    if n < 4294967295 { n as u32 } else { 4294967295 }
}

/// Whether a slot with this tree is a candidate: the tree has at most 31 nodes.
pub fn is_small_tree(tree: &Expr) -> bool
    ensures { result ≡ is_small tree.now }
{
    node_count(tree) <= 31
}
