//! Names, members and elements.
ghost use Rattle.std.specs.Prelude.{◌≡◌, IfOk, position};
ghost use Rattle.std.specs.Option.{option_copied};
ghost use Rattle.ax_prog.specs.declared.Pexpr.TheVariants.{Plus as moved};
ghost use Rattle.ax_names_types.specs.Scopes.{same_text, innermost as innermost_of, member_in as member_in_fields, member_of as member_of_struct};
ghost use Rattle.ax_names_types.specs.Verdicts.{denoted as denoted_by, named as named_by, indexed as indexed_by, index as index_by, field as field_by, field_of as field_of_struct, selected as selected_by, pointed as pointed_by, member as member_by, arrow as arrow_by};

use crate::Verdict;
use crate::operands::{Operand, as_value, valued};
use ax_base::gather::{kept, two};
use ax_names_types::faults::{both, wrong_type};
use ax_names_types::scopes::innermost;
use ax_names_types::types::struct_of;
use ax_names_types::{Entity, Entry, Need, TypeFault, TypeKind, Typed};
use ax_parse_grammar::tree::Name;
use ax_prog::copy::copy_ty;
use ax_prog::{Expr, Lval, Pexpr, Span, Struct, StructId, Ty};
use sqlite_items::{Boxed, Items, at};
use std::alloc::{AllocError, Global};

// ---- names

fn denoted(alloc: Global, span: Span, entity: &Entity) -> Result<Verdict, AllocError>
    ensures { IfOk result (λ v. v ≡ denoted_by span entity.now) }
{
    match entity {
        Entity::Variable(id, ty) => Ok(Ok(Typed::Place(copy_ty(alloc, ty)?, Lval::Var(*id)))),
        Entity::Function(_) => Ok(Err(wrong_type(span))),
    }
}

/// What a name means (C11 6.5.1). A function's name is no value.
pub fn named(alloc: Global, span: Span, name: &[u8], names: &[Entry]) -> Result<Verdict, AllocError>
    ensures { IfOk result (λ v. v ≡ named_by span (innermost_of name.now names.now)) }
{
    match innermost(name, names) {
        Some(entry) => denoted(alloc, span, &entry.entity),
        None => Ok(Err(TypeFault {
            kind: TypeKind::UnknownName,
            span,
        })),
    }
}

// ---- elements

// A pointer moved by a number.
fn moved_by(alloc: Global, p: Pexpr, i: Expr) -> Result<Boxed<Pexpr>, AllocError>
    ensures { IfOk result (λ q. q ≡ moved p i) }
{
    let (p, i) = two(Boxed::new(alloc, p), Boxed::new(alloc, i))?;
    Boxed::new(alloc, Pexpr::Plus(p, i))
}

fn indexed(alloc: Global, array: Typed, index: Typed) -> Result<Verdict, AllocError>
    ensures { IfOk result (λ v. v ≡ indexed_by array index) }
{
    match array {
        Typed::Ptr(to, p) => match index {
            Typed::Int(i, atoms) => {
                let (to, to_element) = two(Ok(to), moved_by(alloc, p, kept(i, atoms)))?;
                Ok(Ok(Typed::Place(to, Lval::Deref(to_element))))
            }
            Typed::Ptr(of, q) => Ok(Ok(kept(Typed::Ptr(to, p), (of, q)))),
            Typed::Place(ty, place) => Ok(Ok(kept(Typed::Ptr(to, p), (ty, place)))),
        },
        Typed::Int(x, atoms) => Ok(Ok(kept(Typed::Int(x, atoms), index))),
        Typed::Place(ty, place) => Ok(Ok(kept(Typed::Place(ty, place), index))),
    }
}

/// An element (C11 6.5.2.1), where the array stands at this span.
pub fn index(
    alloc: Global,
    span: Span,
    array: Verdict,
    index: Operand,
) -> Result<Verdict, AllocError>
    ensures { IfOk result (λ v. v ≡ index_by span array index.span index.verdict) }
{
    let x = as_value(alloc, Need::Pointer, span, array);
    let y = valued(alloc, Need::Int, index);
    let (x, y) = two(x, y)?;
    match both(x, y) {
        Ok((x, y)) => indexed(alloc, x, y),
        Err(fault) => Ok(Err(fault)),
    }
}

// ---- members

// A number as a place among members. Want of memory comes long before 2^32 of them.
fn number(n: usize) -> Result<u32, AllocError>
    ensures { IfOk result (λ id. id ≡ n) }
{
    if n < 4294967296 {
        Ok(n as u32)
    } else {
        Err(AllocError)
    }
}

fn place_of(fields: &[(Items<u8>, Ty)], name: &[u8]) -> Option<usize>
    ensures { result ≡ position (λ f. same_text f.0 name.now) fields.now }
{
    fields.iter().position(|f| f.0.as_slice() == name)
}

fn member_in(
    alloc: Global,
    fields: &[(Items<u8>, Ty)],
    name: &[u8],
) -> Result<Option<(u32, Ty)>, AllocError>
    ensures { IfOk result (λ m. m ≡ member_in_fields fields.now name.now) }
{
    match place_of(fields, name) {
        None => Ok(None),
        Some(i) => match at(fields, i) {
            None => Ok(None),
            Some(field) => Ok(Some((number(i)?, copy_ty(alloc, &field.1)?))),
        },
    }
}

fn member_of(
    alloc: Global,
    structs: &[Struct],
    id: StructId,
    name: &[u8],
) -> Result<Option<(u32, Ty)>, AllocError>
    ensures { IfOk result (λ m. m ≡ member_of_struct structs.now id name.now) }
{
    match at(structs, id.0 as usize) {
        None => Ok(None),
        Some(def) => member_in(alloc, def.fields.as_slice(), name),
    }
}

fn field(
    alloc: Global,
    name: &Name,
    place: Lval,
    found: Option<(u32, Ty)>,
) -> Result<Verdict, AllocError>
    ensures { IfOk result (λ v. v ≡ field_by name.now place found) }
{
    match found {
        Some((i, ty)) => {
            let (place, ty) = two(Boxed::new(alloc, place), Ok(ty))?;
            Ok(Ok(Typed::Place(ty, Lval::Field(place, i))))
        }
        None => {
            let fault = TypeFault {
                kind: TypeKind::MissingField,
                span: name.span,
            };
            Ok(kept(Err(fault), place))
        }
    }
}

// The member of a place of this struct.
fn field_of(
    alloc: Global,
    structs: &[Struct],
    name: &Name,
    span: Span,
    id: Option<StructId>,
    place: Lval,
) -> Result<Verdict, AllocError>
    ensures { IfOk result (λ v. v ≡ field_of_struct structs.now name.now span id place) }
{
    match id {
        Some(id) => {
            let found = member_of(alloc, structs, id, name.text.as_slice());
            let (found, place) = two(found, Ok(place))?;
            field(alloc, name, place, found)
        }
        None => Ok(kept(Err(wrong_type(span)), place)),
    }
}

fn selected(
    alloc: Global,
    structs: &[Struct],
    name: &Name,
    span: Span,
    value: Typed,
) -> Result<Verdict, AllocError>
    ensures { IfOk result (λ v. v ≡ selected_by structs.now name.now span value) }
{
    match value {
        Typed::Place(ty, place) => {
            let id = struct_of(&ty);
            field_of(alloc, structs, name, span, id, kept(place, ty))
        }
        Typed::Int(x, atoms) => Ok(Ok(Typed::Int(x, atoms))),
        Typed::Ptr(to, p) => Ok(Ok(Typed::Ptr(to, p))),
    }
}

fn pointed(
    alloc: Global,
    structs: &[Struct],
    name: &Name,
    span: Span,
    value: Typed,
) -> Result<Verdict, AllocError>
    ensures { IfOk result (λ v. v ≡ pointed_by structs.now name.now span value) }
{
    match value {
        Typed::Ptr(to, p) => {
            let id = struct_of(&to);
            let p = Boxed::new(alloc, kept(p, to))?;
            field_of(alloc, structs, name, span, id, Lval::Deref(p))
        }
        Typed::Int(x, atoms) => Ok(Ok(Typed::Int(x, atoms))),
        Typed::Place(ty, place) => Ok(Ok(Typed::Place(ty, place))),
    }
}

/// A member of a struct that stands at this span (C11 6.5.2.3).
pub fn member(
    alloc: Global,
    structs: &[Struct],
    name: &Name,
    span: Span,
    operand: Verdict,
) -> Result<Verdict, AllocError>
    ensures { IfOk result (λ v. v ≡ member_by structs.now name.now span operand) }
{
    match as_value(alloc, Need::Struct, span, operand)? {
        Ok(value) => selected(alloc, structs, name, span, value),
        Err(fault) => Ok(Err(fault)),
    }
}

/// A member of the struct that a pointer at this span leads to (C11 6.5.2.3).
pub fn arrow(
    alloc: Global,
    structs: &[Struct],
    name: &Name,
    span: Span,
    operand: Verdict,
) -> Result<Verdict, AllocError>
    ensures { IfOk result (λ v. v ≡ arrow_by structs.now name.now span operand) }
{
    match as_value(alloc, Need::StructPointer, span, operand)? {
        Ok(value) => pointed(alloc, structs, name, span, value),
        Err(fault) => Ok(Err(fault)),
    }
}
