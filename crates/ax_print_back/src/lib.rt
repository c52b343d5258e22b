//! Changed sources read back: a source in which the expressions of slots are replaced by printed trees is the text of
//! the program with these trees.
#![tactic(auto)]

ghost use Rattle.std.specs.Prelude.{◌≡◌, ℕ, List, [], IfOk};
ghost use Rattle.ax_prog.specs.declared.Program.{Program};
ghost use Rattle.ax_prog.specs.Same.{SameProgram};
ghost use Rattle.ax_front.specs.Texts.{IsProgramOfText};
ghost use Rattle.ax_print_back.specs.Changes.{Change, AreChanges, replaced, changed, parts_of, ReadsBack};

mod shown;
mod swaps;

use ax_print_fills::{atoms_are_parts, filled_programs, written_numbers};
use ax_print_holes::holes_are_spelled;
pub use shown::trees_are_shown;
pub use swaps::{stretches_are_copied, stretches_are_swapped};

mod forms;

use ax_front_facts::{names_are_words, slots_lie, slots_rise};
use ax_print::{expr_text, splice};
use ax_prog::{Expr, Program, SlotId, Span};
pub use forms::is_writable;
use sqlite_items::Items;
use std::alloc::{AllocError, Global};

// The places of the changed slots, each with the text of its new tree.
fn parts(
    alloc: Global,
    source: &[u8],
    program: &Program,
    changes: &[(SlotId, Expr)],
) -> Result<Items<(Span, Items<u8>)>, AllocError>
    requires { AreChanges 0 program.now changes.now }
    ensures { IfOk result (λ parts. parts ≡ parts_of source.now program.now changes.now) }
{
    let mut parts = Items::new(alloc);
    for change in changes {
        let text = expr_text(alloc, source, program, change.0, &change.1)?;
        let span = program.slots.as_slice()[change.0.0 as usize].span;
        parts.push((span, text))?;
    }
    Ok(parts)
}

/// The source in which the expression of each changed slot is replaced by its new tree in parentheses. All other bytes
/// stay. It reads back as the program with the new trees.
pub fn write_changes(
    alloc: Global,
    source: &[u8],
    program: &Program,
    changes: &[(SlotId, Expr)],
) -> Result<Items<u8>, AllocError>
    requires text { IsProgramOfText source.now program.now }
    requires changes { AreChanges 0 program.now changes.now }
    ensures text { IfOk result (λ text. text ≡ changed source.now program.now changes.now) }
    ensures back { IfOk result (λ text. (new : Program) × IsProgramOfText text new × SameProgram new (replaced program.now changes.now)) }
{
    reads_back();
    let parts = parts(alloc, source, program, changes)?;
    let text = splice(alloc, source, parts.as_slice())?;
    Ok(text)
}

/// A changed source reads back (a law).
pub fn reads_back()
    ensures { (source : List ℕ) (program : Program) (changes : List Change) → IsProgramOfText source program → AreChanges 0 program changes → ReadsBack source program changes }
{
    slots_lie();
    slots_rise();
    names_are_words();
    stretches_are_swapped();
    trees_are_shown();
    holes_are_spelled();
    filled_programs();
    written_numbers();
    atoms_are_parts();
}

/// With no change the text is the source (a law).
pub fn keeps_source()
    ensures { (source : List ℕ) (program : Program) → changed source program [] ≡ source }
{}
