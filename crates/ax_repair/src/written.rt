//! The source in which a patch is written.
ghost use Rattle.std.specs.Prelude.{◌≡◌, ℕ, List, length, Option, Some, None, IfOk};
ghost use Rattle.ax_print.specs.Spliced.{AreParts};
ghost use Rattle.ax_repair.specs.Written.{changed_part, parts_of, changes_of, written};

use ax_print::{expr_text, splice};
use ax_prog::same::same_expr;
use ax_prog::{Expr, Program, SlotId, Span};
use sqlite_items::Items;
use std::alloc::{AllocError, Global};

// The place of the slot and the text of its new tree, where the tree isn't the slot's own.
fn part(
    alloc: Global,
    source: &[u8],
    program: &Program,
    id: SlotId,
    tree: &Expr,
) -> Result<Option<(Span, Items<u8>)>, AllocError>
    ensures { IfOk result (λ part. part ≡ changed_part source.now program.now (id, tree.now)) }
{
    match program.slots.get(id.0 as usize) {
        None => Ok(None),
        Some(slot) => {
            if same_expr(&slot.expr, tree) {
                Ok(None)
            } else {
                let text = expr_text(alloc, source, program, id, tree)?;
                Ok(Some((slot.span, text)))
            }
        }
    }
}

// The places of the changed slots and the texts of their new trees.
fn parts(
    alloc: Global,
    source: &[u8],
    program: &Program,
    chosen: &[SlotId],
    trees: &[Expr],
) -> Result<Items<(Span, Items<u8>)>, AllocError>
    ensures { IfOk result (λ parts. parts ≡ parts_of source.now program.now (changes_of program.now chosen.now trees.now)) }
{
    let mut all = Items::new(alloc);
    for (id, tree) in chosen.iter().zip(trees) {
        if let Some(one) = part(alloc, source, program, *id, tree)? {
            all.push(one)?;
        }
    }
    Ok(all)
}

/// The source with the expression of each chosen slot whose tree changes replaced by the text of its new tree.
pub fn write_source(
    alloc: Global,
    source: &[u8],
    program: &Program,
    chosen: &[SlotId],
    trees: &[Expr],
) -> Result<Items<u8>, AllocError>
    requires { AreParts 0 (length source.now) (parts_of source.now program.now (changes_of program.now chosen.now trees.now)) }
    ensures { IfOk result (λ text. text ≡ written source.now program.now chosen.now trees.now) }
{
    let parts = parts(alloc, source, program, chosen, trees)?;
    splice(alloc, source, parts.as_slice())
}
