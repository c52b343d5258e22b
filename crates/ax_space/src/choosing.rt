//! Whether expressions may be chosen.
ghost use Rattle.std.specs.Prelude.{◌≡◌, ◌↔◌, ◌<◌, IsTrue, Contains, AllPairs};
ghost use Rattle.std.specs.List.{All};
ghost use Rattle.ax_prog.specs.Candidates.{candidates_of};
ghost use Rattle.ax_space.specs.Chosen.{AreChosen};

use ax_prog::nodes::is_small_tree;
use ax_prog::{Program, SlotId};

/// Whether these are at most four candidates of the program, in rising order.
pub fn are_chosen(program: &Program, chosen: &[SlotId]) -> bool
    ensures { IsTrue result ↔ AreChosen program.now chosen.now }
{
    let candidates = are_candidates(program, chosen);
    let rising = are_rising(chosen);
    candidates && rising && chosen.len() <= 4
}

fn are_candidates(program: &Program, chosen: &[SlotId]) -> bool
    ensures { IsTrue result ↔ All (Contains (candidates_of program.now)) chosen.now }
{
    for id in chosen {
        if !is_candidate(program, *id) {
            return false;
        }
    }
    true
}

fn is_candidate(program: &Program, id: SlotId) -> bool
    ensures { IsTrue result ↔ Contains (candidates_of program.now) id }
{
    match program.slots.get(id.0 as usize) {
        Some(slot) => is_small_tree(&slot.expr),
        None => false,
    }
}

fn are_rising(chosen: &[SlotId]) -> bool
    ensures { IsTrue result ↔ AllPairs (λ a b. a.0 < b.0) chosen.now }
{
    let mut least: u64 = 0;
    for id in chosen {
        if (id.0 as u64) < least {
            return false;
        }
        least = id.0 as u64 + 1;
    }
    true
}
