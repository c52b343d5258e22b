//! Definitions of structs.
ghost use Rattle.std.specs.Prelude.{◌≡◌, [], ◌∷◌, ◌++◌, length, IfOk, OnOk};
ghost use Rattle.ax_names_declared.specs.Firsts.{Exact, fault_of as fault_in};
ghost use Rattle.ax_names_declared.specs.Denotations.{tags_of, name_at};
ghost use Rattle.ax_names_declared.specs.Structs.{Defines, Misdefines};
ghost use Rattle.ax_names_declared.specs.Verdicts.{declared as declared_by};
ghost use Rattle.ax_names_declared.specs.Members.{field_place, named as named_by, names_of, type_or_int as type_or, with_member as with_one, after_one, after_items, after_members, nothing_found, defined as defined_by, definition as verdict_on};

use crate::bases::{member_base, name_at as struct_at};
use crate::declarators::with_base;
use crate::firsts::earlier;
use ax_names_types::{TypeFault, TypeKind};
use ax_parse_grammar::tree::{Base, Declarator, Members, Name};
use ax_prog::{Struct, Ty};
use sqlite_items::Items;
use std::alloc::{AllocError, Global};

// What a walk over members has found: the members, and the first fault. A member with a fault has its name here too.
#[derive(Drop)]
pub struct Found {
    pub fields: Items<(Items<u8>, Ty)>,
    pub fault: Option<TypeFault>,
}

// Where a member has this name.
fn field_at(fields: &[(Items<u8>, Ty)], name: &[u8]) -> Option<usize>
    ensures { result ≡ field_place fields.now name.now }
{
    fields.iter().position(|field| field.0.as_slice() == name)
}

#[tactic(auto, using(crate::proofs::Tags::field_is))]
fn taken_at(fields: &[(Items<u8>, Ty)], name: &[u8]) -> Option<usize>
    ensures { result ≡ name_at (names_of fields.now) name.now }
{
    field_at(fields, name)
}

// The fault of a name that stands there already.
pub fn again(name: &Name, at: Option<usize>) -> Option<TypeFault>
    ensures { result ≡ fault_in (named_by name.now at) }
{
    match at {
        None => None,
        Some(_) => Some(TypeFault {
            kind: TypeKind::Redeclared,
            span: name.span,
        }),
    }
}

pub fn fault_of(ty: &Result<Ty, TypeFault>) -> Option<TypeFault>
    ensures { result ≡ fault_in ty.now }
{
    match ty {
        Ok(_) => None,
        Err(fault) => Some(*fault),
    }
}

pub fn type_or_int(ty: Result<Ty, TypeFault>) -> Ty
    ensures { result ≡ type_or ty }
{
    match ty {
        Ok(ty) => ty,
        Err(_) => Ty::Int,
    }
}

fn with_member(
    alloc: Global,
    name: &Name,
    at: Option<usize>,
    ty: Result<Ty, TypeFault>,
    found: &mut Found,
) -> Result<(), AllocError>
    ensures { OnOk result (found.new ≡ with_one name.now at ty found.old) }
{
    found.fault = earlier(found.fault, earlier(again(name, at), fault_of(&ty)));
    let text = Items::from_slice(alloc, name.text.as_slice())?;
    found.fields.push((text, type_or_int(ty)))?;
    Ok(())
}

// The type of a member in the struct with this tag.
fn member_type(
    alloc: Global,
    structs: &[Struct],
    own: &[u8],
    base: &Base,
    declarator: &Declarator,
) -> Result<Result<Ty, TypeFault>, AllocError>
    ensures { IfOk result (λ v. v ≡ declared_by (tags_of structs.now ++ own.now ∷ []) (length structs.now) base.now declarator.now.stars declarator.now.sizes declarator.now.span) }
{
    let found = member_base(structs, own, base)?;
    with_base(
        alloc,
        structs.len(),
        declarator.stars,
        declarator.sizes.as_slice(),
        declarator.span,
        found,
    )
}

fn item(
    alloc: Global,
    structs: &[Struct],
    own: &[u8],
    base: &Base,
    declarator: &Declarator,
    found: &mut Found,
) -> Result<(), AllocError>
    ensures { OnOk result (found.new ≡ after_one (tags_of structs.now ++ own.now ∷ []) (length structs.now) base.now declarator.now found.old) }
{
    let at = taken_at(found.fields.as_slice(), declarator.name.text.as_slice());
    let ty = member_type(alloc, structs, own, base, declarator)?;
    with_member(alloc, &declarator.name, at, ty, found)
}

fn items(
    alloc: Global,
    structs: &[Struct],
    own: &[u8],
    base: &Base,
    list: &[Declarator],
    found: &mut Found,
) -> Result<(), AllocError>
    ensures { OnOk result (found.new ≡ after_items (tags_of structs.now ++ own.now ∷ []) (length structs.now) base.now list.now found.old) }
{
    for declarator in list {
        item(alloc, structs, own, base, declarator, found)?;
    }
    Ok(())
}

fn members(
    alloc: Global,
    structs: &[Struct],
    own: &[u8],
    list: &[Members],
) -> Result<Found, AllocError>
    ensures { IfOk result (λ found. found ≡ after_members (tags_of structs.now ++ own.now ∷ []) (length structs.now) list.now nothing_found) }
{
    let mut found = Found {
        fields: Items::new(alloc),
        fault: None,
    };
    for m in list {
        items(alloc, structs, own, &m.base, m.items.as_slice(), &mut found)?;
    }
    Ok(found)
}

// The struct, or the first fault in its name and its members.
fn defined(
    alloc: Global,
    name: &Name,
    at: Option<usize>,
    found: Found,
) -> Result<Result<Struct, TypeFault>, AllocError>
    ensures { IfOk result (λ v. v ≡ defined_by name.now at found) }
{
    let Found { fields, fault } = found;
    match earlier(again(name, at), fault) {
        Some(fault) => Ok(Err(fault)),
        None => {
            let name = Items::from_slice(alloc, name.text.as_slice())?;
            Ok(Ok(Struct { name, fields }))
        }
    }
}

/// The struct that a definition of this tag behind these structs defines, or the first rule that it breaks.
pub fn struct_type(
    alloc: Global,
    structs: &[Struct],
    name: &Name,
    list: &[Members],
) -> Result<Result<Struct, TypeFault>, AllocError>
    ensures exact { IfOk result (λ v. Exact (Defines structs.now name.now list.now) (Misdefines structs.now name.now list.now) v) }
    ensures verdict { IfOk result (λ v. v ≡ verdict_on structs.now name.now list.now) }
{
    let at = struct_at(structs, name.text.as_slice());
    let found = members(alloc, structs, name.text.as_slice(), list)?;
    defined(alloc, name, at, found)
}
