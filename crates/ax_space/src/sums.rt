//! Sums over the chosen expressions: changed nodes, and the most that can change.
ghost use Rattle.std.specs.Prelude.{◌≡◌, ◌≤◌, ◌*◌, ◌^◌, length};
ghost use Rattle.std.specs.List.{All};
ghost use Rattle.ax_prog.specs.Nodes.{nodes};
ghost use Rattle.ax_space.specs.Sums.{SumOfChanges, AreSmall, total_room};

use ax_prog::{Expr, Slot};
use ax_space_trees::changes::changed_nodes;
use ax_space_trees::counting::most_nodes;

/// The changed nodes of a tree for each slot, taken together.
pub fn sum_of_changes(slots: &[Slot], trees: &[Expr]) -> u64
    requires small { AreSmall slots.now trees.now }
    requires few { length slots.now ≤ 4 }
    ensures sum { SumOfChanges slots.now trees.now result }
    ensures bound { result ≤ length slots.now * 2 ^ 32 }
{
    match slots {
        [] => 0,
        [slot, rest @ ..] => match trees {
            [] => 0,
            [tree, others @ ..] => {
                let own = changed_nodes(&slot.expr, tree);
                own as u64 + sum_of_changes(rest, others)
            }
        },
    }
}

/// The positions of the old trees, each with all words of the growth behind it.
pub fn room(slots: &[Slot], grow: u32) -> u32
    requires small { All (λ slot. nodes slot.expr ≤ 31) slots.now }
    requires few { length slots.now ≤ 4 }
    requires grown { grow ≤ 20 }
    ensures room { result ≡ total_room grow slots.now }
    ensures bound { result ≤ length slots.now * 65011681 }
{
    match slots {
        [] => 0,
        [slot, rest @ ..] => {
            let own = most_nodes(&slot.expr, grow);
            own + room(rest, grow)
        }
    }
}
