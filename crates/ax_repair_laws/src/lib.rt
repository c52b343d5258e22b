//! Repaired sources, read back: the source that a repair is written in is the text of a program that passes every
//! test, and the given source where the repair costs nothing.
#![tactic(auto)]

ghost use Rattle.ax_repair_laws.specs.Reading.{WrittenReadsBack, RepairedPasses, PatchesAreWritable, UnchangedIsSame, StaysAtCost0};

use ax_front_facts::{slots_are_writable, slots_fit};
use ax_meaning::same_runs;
use ax_print_back::reads_back;
use ax_repair::own_trees_stay;

/// A source in which a patch is written reads back as the patched program (a law).
pub fn written_reads_back()
    ensures { WrittenReadsBack }
{
    slots_fit();
    reads_back();
}

/// A source in which a repair is written, read back, passes every test within the bounds (a law).
pub fn repaired_passes()
    ensures { RepairedPasses }
{
    written_reads_back();
    same_runs();
}

/// Each tree of a patch can be written, guards aside (a law).
pub fn patches_are_writable()
    ensures { PatchesAreWritable }
{
    slots_are_writable();
}

/// A tree has no changed node exactly where it is the old tree (a law).
pub fn unchanged_is_same()
    ensures { UnchangedIsSame }
{}

/// A source in which a patch of cost 0 is written is the given source, byte for byte (a law).
pub fn stays_at_cost_0()
    ensures { StaysAtCost0 }
{
    own_trees_stay();
}
