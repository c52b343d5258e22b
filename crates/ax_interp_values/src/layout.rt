//! A program with the numbers of cells of its structs.
ghost use Rattle.std.specs.Prelude.{◌≡◌, IfOk};
ghost use Rattle.std.proofs.Props.{props};
ghost use Rattle.std.specs.Coded.{Coded-set};
ghost use Rattle.ax_meaning.specs.Types.{sizes_of};
ghost use Rattle.ax_prog.specs.declared.Ty.TheVariants as ty;

use crate::types::struct_sizes;
use ax_prog::{Program, Ty};
use sqlite_items::Items;
use std::alloc::{AllocError, Global};

/// A program, with the number of cells of each of its structs, and the type `int`, which a place has that breaks the
/// rules of types.
#[derive(Drop)]
pub struct Layout<'a> {
    pub program: &'a Program,
    pub sizes: Items<u32>,
    pub int: Ty,
    pub ghost sizes_are: { sizes ≡ sizes_of program.now } by { Prim.hlevel props },
    pub ghost int_is: { int ≡ ty.Int } by { Coded-set int-code int ty.Int },
}

/// The layout of a program.
pub fn layout_of<'a>(alloc: Global, program: &'a Program) -> Result<Layout<'a>, AllocError>
    ensures { IfOk result (λ it. it.program.now ≡ program.now) }
{
    let sizes = struct_sizes(alloc, program)?;
    Ok(Layout {
        program,
        sizes,
        int: Ty::Int,
    })
}
