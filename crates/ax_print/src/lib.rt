//! The text of a repair: what a new tree is written as in place of an expression, and a source with parts of it
//! replaced.
#![tactic(auto)]

ghost use Rattle.std.specs.Prelude.{◌≡◌, length, IfOk};
ghost use Rattle.ax_print.specs.Text.{text_of};
ghost use Rattle.ax_print.specs.Spliced.{spliced, AreParts};

mod leaves;
mod writing;

use ax_prog::{Expr, Program, SlotId, Span};
use leaves::{Site, slot_atoms};
use sqlite_items::Items;
use std::alloc::{AllocError, Global};
use writing::{append, write_whole};

/// The text that replaces the expression of that slot by this tree, as bytes of the source.
///
/// A number stands in decimal, a variable by its name, and any other atom by the bytes that the first of the slot's
/// atoms that equals it has in `source`, or by none where none does. A unary operator stands directly before its
/// operand, a binary one between single spaces, and `?:` as `a ? b : c`. The whole stands in parentheses, and so does
/// each operand that isn't a number or the value of a place.
pub fn expr_text(
    alloc: Global,
    source: &[u8],
    program: &Program,
    slot: SlotId,
    tree: &Expr,
) -> Result<Items<u8>, AllocError>
    ensures { IfOk result (λ text. text ≡ text_of source.now program.now slot tree.now) }
{
    let atoms = slot_atoms(program, slot);
    let site = Site {
        source,
        program,
        atoms,
    };
    let mut out = Vec::new(alloc);
    write_whole(tree, &site, &mut out)?;
    Ok(Items::from_vec(out))
}

/// The source with the bytes of each part's span replaced by the part's text. All other bytes stay, in their order.
///
/// The spans rise, don't overlap and lie in the source.
pub fn splice(
    alloc: Global,
    source: &[u8],
    parts: &[(Span, Items<u8>)],
) -> Result<Items<u8>, AllocError>
    requires { AreParts 0 (length source.now) parts.now }
    ensures { IfOk result (λ text. text ≡ spliced source.now parts.now) }
{
    let mut out = Vec::new(alloc);
    let mut at: usize = 0;
    for part in parts {
        append(&mut out, &source[at..part.0.from as usize])?;
        append(&mut out, part.1.as_slice())?;
        at = part.0.to as usize;
    }
    append(&mut out, &source[at..])?;
    Ok(Items::from_vec(out))
}
