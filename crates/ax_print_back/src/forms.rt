//! Which trees can be written.
ghost use Rattle.std.specs.Prelude.{◌≡◌, ◌↔◌, IsTrue};
ghost use Rattle.ax_front_facts.specs.Writable.{IsWritable};
ghost use Rattle.ax_print_back.specs.Deciding.{number_test, writable_test};

use ax_prog::Expr;

fn is_number(n: i32) -> bool
    ensures { result ≡ number_test n }
{
    n >= 0
}

#[tactic(auto, using(crate::proofs::Deciding::test_layers))]
fn writes(tree: &Expr) -> bool
    ensures { result ≡ writable_test tree.now }
{
    match tree {
        Expr::Num(n) => is_number(*n),
        Expr::Atom(_) => true,
        Expr::Un(_, a) => writes(a.get()),
        Expr::Bin(_, a, b) => writes(a.get()) && writes(b.get()),
        Expr::Cond(f, a, b) => {
            if !writes(f.get()) {
                return false;
            }
            writes(a.get()) && writes(b.get())
        }
    }
}

/// Whether the tree can be written: whether each of its numbers is the value of a number token (C11 6.4.4.1).
pub fn is_writable(tree: &Expr) -> bool
    ensures { IsTrue result ↔ IsWritable tree.now }
{
    writes(tree)
}
