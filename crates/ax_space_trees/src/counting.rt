//! How many nodes the trees of a space have at most.
ghost use Rattle.std.specs.Prelude.{◌≡◌, ◌≤◌, ◌*◌};
ghost use Rattle.ax_prog.specs.Nodes.{nodes};
ghost use Rattle.ax_space_trees.specs.Sizes.{words};

use ax_prog::Expr;
use ax_prog::nodes::node_count;

/// The positions of the old tree, each with all words over 1 and 2 of at most `grow` letters behind it, a position
/// that is reached in two ways counted twice. No tree of the space has more nodes.
pub fn most_nodes(old: &Expr, grow: u32) -> u32
    requires small { nodes old.now ≤ 31 }
    requires grown { grow ≤ 20 }
    ensures { result ≡ nodes old.now * words grow }
{
    node_count(old) * word_count(grow)
}

// The words over 1 and 2 of at most so many letters.
fn word_count(letters: u32) -> u32
    requires { letters ≤ 20 }
    ensures count { result ≡ words letters }
    ensures small { result ≤ 2097151 }
{
    let mut count: u32 = 1;
    for at in 0..letters {
        count = count + count + 1;
    }
    count
}
