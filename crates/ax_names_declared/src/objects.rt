//! The types of variables.
ghost use Rattle.std.specs.Prelude.{◌≡◌, IfOk};
ghost use Rattle.ax_names_declared.specs.Firsts.{Exact};
ghost use Rattle.ax_names_declared.specs.Breaks.{DeclaresObject, MisdeclaresObject};
ghost use Rattle.ax_names_declared.specs.Cells.{measured};
ghost use Rattle.ax_names_declared.specs.Verdicts.{bounded as bounded_by, object};

use crate::bases::base_type;
use crate::cells::fits;
use crate::declarators::with_base;
use ax_names_types::{TypeFault, TypeKind};
use ax_parse_grammar::tree::{Base, Size};
use ax_prog::{Span, Struct, Ty};
use std::alloc::{AllocError, Global};

// The type, where a variable of it isn't too large.
fn bounded(small: bool, span: Span, ty: Result<Ty, TypeFault>) -> Result<Ty, TypeFault>
    ensures { result ≡ bounded_by small span ty }
{
    match ty {
        Err(fault) => Err(fault),
        Ok(ty) => {
            if small {
                Ok(ty)
            } else {
                Err(TypeFault {
                    kind: TypeKind::TooLarge,
                    span,
                })
            }
        }
    }
}

// The verdict on a variable, where the structs have these numbers of cells.
fn judged(
    alloc: Global,
    structs: &[Struct],
    cells: &[u32],
    base: &Base,
    stars: usize,
    sizes: &[Size],
    at: Span,
) -> Result<Result<Ty, TypeFault>, AllocError>
    ensures { IfOk result (λ v. v ≡ object structs.now cells.now base.now stars sizes.now at) }
{
    let found = base_type(structs, base)?;
    let small = fits(cells, stars, sizes, &found);
    let ty = with_base(alloc, structs.len(), stars, sizes, at, found)?;
    Ok(bounded(small, at, ty))
}

/// The type of a variable whose declarator stands here, or the first rule that the declaration breaks. The structs
/// so far have these numbers of cells, where 4,097 stands for all larger ones.
pub fn object_type(
    alloc: Global,
    structs: &[Struct],
    cells: &[u32],
    base: &Base,
    stars: usize,
    sizes: &[Size],
    at: Span,
) -> Result<Result<Ty, TypeFault>, AllocError>
    requires measured { cells.now ≡ measured structs.now }
    ensures exact { IfOk result (λ v. Exact (DeclaresObject structs.now base.now stars sizes.now) (MisdeclaresObject structs.now base.now stars sizes.now at) v) }
    ensures verdict { IfOk result (λ v. v ≡ object structs.now cells.now base.now stars sizes.now at) }
{
    judged(alloc, structs, cells, base, stars, sizes, at)
}
