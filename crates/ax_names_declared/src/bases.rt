//! Bases of declarations.
ghost use Rattle.std.specs.Prelude.{◌≡◌, [], ◌∷◌, ◌++◌, IfOk};
ghost use Rattle.ax_names_types.specs.Scopes.{same_text as same_text_of};
ghost use Rattle.ax_names_declared.specs.Denotations.{tags_of, name_at as place_in};
ghost use Rattle.ax_names_declared.specs.Verdicts.{place_of as place_of_name, tagged as tagged_by, base_of};

use ax_names_types::{TypeFault, TypeKind};
use ax_parse_grammar::tree::{Base, Name};
use ax_prog::{Span, Struct, StructId, Ty};
use std::alloc::AllocError;

/// A number as an id. Want of memory comes long before 2^32 of them.
pub fn number(n: usize) -> Result<u32, AllocError>
    ensures { IfOk result (λ id. id ≡ n) }
{
    if n < 4294967296 {
        Ok(n as u32)
    } else {
        Err(AllocError)
    }
}

// Where the first struct of this name stands.
fn place_of(structs: &[Struct], name: &[u8]) -> Option<usize>
    ensures { result ≡ place_of_name structs.now name.now }
{
    structs.iter().position(|s| s.name.as_slice() == name)
}

/// Where the struct of this tag stands.
#[tactic(auto, using(crate::proofs::Tags::place_is))]
pub fn name_at(structs: &[Struct], tag: &[u8]) -> Option<usize>
    ensures { result ≡ place_in (tags_of structs.now) tag.now }
{
    place_of(structs, tag)
}

pub fn same_text(a: &[u8], b: &[u8]) -> bool
    ensures { result ≡ same_text_of a.now b.now }
{
    a == b
}

// The same where one more struct, with this tag, is being defined.
fn tag_within(structs: &[Struct], own: &[u8], tag: &[u8]) -> Option<usize>
    ensures { result ≡ place_in (tags_of structs.now ++ own.now ∷ []) tag.now }
{
    match name_at(structs, tag) {
        Some(at) => Some(at),
        None => {
            if same_text(own, tag) {
                Some(structs.len())
            } else {
                None
            }
        }
    }
}

fn tagged(span: Span, at: Option<usize>) -> Result<Result<Ty, TypeFault>, AllocError>
    ensures { IfOk result (λ v. v ≡ tagged_by span at) }
{
    match at {
        None => Ok(Err(TypeFault {
            kind: TypeKind::UnknownName,
            span,
        })),
        Some(at) => Ok(Ok(Ty::Struct(StructId(number(at)?)))),
    }
}

/// The type of a base outside of a definition of a struct.
pub fn base_type(structs: &[Struct], base: &Base) -> Result<Result<Ty, TypeFault>, AllocError>
    ensures { IfOk result (λ v. v ≡ base_of (tags_of structs.now) base.now) }
{
    match base {
        Base::Int(_) => Ok(Ok(Ty::Int)),
        Base::Struct(_, name) => tagged(name.span, name_at(structs, name.text.as_slice())),
    }
}

/// The type of a base in the definition of the struct that has this tag.
pub fn member_base(
    structs: &[Struct],
    own: &[u8],
    base: &Base,
) -> Result<Result<Ty, TypeFault>, AllocError>
    ensures { IfOk result (λ v. v ≡ base_of (tags_of structs.now ++ own.now ∷ []) base.now) }
{
    match base {
        Base::Int(_) => Ok(Ok(Ty::Int)),
        Base::Struct(_, name) => tagged(name.span, tag_within(structs, own, name.text.as_slice())),
    }
}
