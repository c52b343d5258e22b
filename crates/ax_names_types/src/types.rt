//! Types.
ghost use Rattle.std.specs.Prelude.{◌≡◌};
ghost use Rattle.ax_names_types.specs.Types.{struct_of as struct_of_ty};
ghost use Rattle.ax_names_types.specs.Verdicts.{same_ty as same_ty_of};

use ax_prog::{StructId, Ty};

/// Whether two types are equal.
#[tactic(auto, using(crate::proofs::Layers::types))]
pub fn same_ty(a: &Ty, b: &Ty) -> bool
    ensures { result ≡ same_ty_of a.now b.now }
{
    match a {
        Ty::Int => match b {
            Ty::Int => true,
            Ty::Ptr(_) | Ty::Array(_, _) | Ty::Struct(_) => false,
        },
        Ty::Ptr(a) => match b {
            Ty::Ptr(b) => same_ty(a.get(), b.get()),
            Ty::Int | Ty::Array(_, _) | Ty::Struct(_) => false,
        },
        Ty::Array(a, m) => match b {
            Ty::Array(b, n) => {
                if *m == *n {
                    same_ty(a.get(), b.get())
                } else {
                    false
                }
            }
            Ty::Int | Ty::Ptr(_) | Ty::Struct(_) => false,
        },
        Ty::Struct(j) => match b {
            Ty::Struct(k) => j.0 == k.0,
            Ty::Int | Ty::Ptr(_) | Ty::Array(_, _) => false,
        },
    }
}

/// Which struct a type is.
pub fn struct_of(ty: &Ty) -> Option<StructId>
    ensures { result ≡ struct_of_ty ty.now }
{
    match ty {
        Ty::Struct(id) => Some(*id),
        _ => None,
    }
}
