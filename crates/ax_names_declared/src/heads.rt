//! Heads of functions.
ghost use Rattle.std.specs.Prelude.{◌≡◌, [], length, IfOk, OnOk};
ghost use Rattle.ax_names_declared.specs.Firsts.{Exact, fault_of as fault_in};
ghost use Rattle.ax_names_declared.specs.Denotations.{name_at as place_in};
ghost use Rattle.ax_names_declared.specs.Heads.{adjusted as adjusted_type, and_name as names_with, DeclaresFunction, MisdeclaresFunction};
ghost use Rattle.ax_names_declared.specs.Signatures.{scalar as scalar_at, as_scalar as as_scalar_at, as_param as as_param_at, param as param_of, param_name as name_of_param, result as result_of, some_of as some_in, with_param as with_one, after_param, after_params, no_params, concluded as concluded_by, signature as verdict_on};

use crate::bases::base_type;
use crate::declarators::{filled, with_base};
use crate::firsts::earlier;
use crate::structs::{again, fault_of, type_or_int};
use ax_names_types::TypeFault;
use ax_names_types::faults::{sooner, wrong_type};
use ax_names_types::types::struct_of;
use ax_parse_grammar::tree::{Head, Name, Param, Returns};
use ax_prog::{Span, Struct, Ty};
use sqlite_items::Items;
use std::alloc::{AllocError, Global};

/// What a head says of its function: what it returns, if anything, and the types of its parameters.
#[derive(Drop)]
pub struct Signature {
    pub result: Option<Ty>,
    pub params: Items<Ty>,
}

// What a walk over parameters has found: names, types, and the first fault.
#[derive(Drop)]
pub struct Listed {
    pub names: Items<Items<u8>>,
    pub types: Items<Ty>,
    pub fault: Option<TypeFault>,
}

// The type, where it is no struct.
fn scalar(at: Span, ty: Ty) -> Result<Ty, TypeFault>
    ensures { result ≡ scalar_at at ty }
{
    if struct_of(&ty).is_some() {
        Err(wrong_type(at))
    } else {
        Ok(ty)
    }
}

// An array counts as a pointer to its elements.
#[tactic(auto, using(crate::proofs::Adjusted::adjusted_types))]
fn adjusted(ty: Ty) -> Ty
    ensures { result ≡ adjusted_type ty }
{
    match ty {
        Ty::Int => Ty::Int,
        Ty::Ptr(to) => Ty::Ptr(to),
        Ty::Array(of, _) => Ty::Ptr(of),
        Ty::Struct(id) => Ty::Struct(id),
    }
}

fn as_scalar(at: Span, ty: Result<Ty, TypeFault>) -> Result<Ty, TypeFault>
    ensures { result ≡ as_scalar_at at ty }
{
    match ty {
        Ok(ty) => scalar(at, ty),
        Err(fault) => Err(fault),
    }
}

fn as_param(at: Span, ty: Result<Ty, TypeFault>) -> Result<Ty, TypeFault>
    ensures { result ≡ as_param_at at ty }
{
    match ty {
        Ok(ty) => scalar(at, adjusted(ty)),
        Err(fault) => Err(fault),
    }
}

// The type of a parameter.
fn param(alloc: Global, structs: &[Struct], it: &Param) -> Result<Result<Ty, TypeFault>, AllocError>
    ensures { IfOk result (λ v. v ≡ param_of structs.now it.now) }
{
    let base = base_type(structs, &it.base)?;
    let sizes = filled(alloc, 1, it.sizes.as_slice())?;
    let ty = with_base(
        alloc,
        structs.len(),
        it.stars,
        sizes.as_slice(),
        it.span,
        base,
    )?;
    Ok(as_param(it.span, ty))
}

// Where a name stands among names.
fn place_of(names: &[Items<u8>], name: &[u8]) -> Option<usize>
    ensures { result ≡ place_in names.now name.now }
{
    names.iter().position(|it| it.as_slice() == name)
}

// The fault of a parameter's name.
fn name_fault(
    defined: bool,
    names: &[Items<u8>],
    at: Span,
    name: &Option<Name>,
) -> Option<TypeFault>
    ensures { result ≡ fault_in (name_of_param defined names.now at name.now) }
{
    match name {
        None => { if defined { Some(wrong_type(at)) } else { None } }
        Some(name) => again(name, place_of(names, name.text.as_slice())),
    }
}

// The names with one more, where there is one.
fn push_name(
    alloc: Global,
    names: &mut Items<Items<u8>>,
    name: &Option<Name>,
) -> Result<(), AllocError>
    ensures { OnOk result (names.new ≡ names_with names.old name.now) }
{
    match name {
        None => Ok(()),
        Some(name) => names.push(Items::from_slice(alloc, name.text.as_slice())?),
    }
}

fn with_param(
    alloc: Global,
    structs: &[Struct],
    defined: bool,
    it: &Param,
    found: &mut Listed,
) -> Result<(), AllocError>
    ensures { OnOk result (found.new ≡ after_param structs.now defined it.now found.old) }
{
    let name = name_fault(defined, found.names.as_slice(), it.span, &it.name);
    let ty = param(alloc, structs, it)?;
    found.fault = earlier(found.fault, earlier(name, fault_of(&ty)));
    push_name(alloc, &mut found.names, &it.name)?;
    found.types.push(type_or_int(ty))
}

fn params(
    alloc: Global,
    structs: &[Struct],
    defined: bool,
    list: &[Param],
) -> Result<Listed, AllocError>
    ensures { IfOk result (λ found. found ≡ after_params structs.now defined list.now no_params) }
{
    let mut found = Listed {
        names: Items::new(alloc),
        types: Items::new(alloc),
        fault: None,
    };
    for it in list {
        with_param(alloc, structs, defined, it, &mut found)?;
    }
    Ok(found)
}

fn some_of(ty: Result<Ty, TypeFault>) -> Result<Option<Ty>, TypeFault>
    ensures { result ≡ some_in ty }
{
    match ty {
        Ok(ty) => Ok(Some(ty)),
        Err(fault) => Err(fault),
    }
}

// What a function returns.
fn result_type(
    alloc: Global,
    structs: &[Struct],
    at: Span,
    returns: &Returns,
    stars: usize,
) -> Result<Result<Option<Ty>, TypeFault>, AllocError>
    ensures { IfOk result (λ v. v ≡ result_of structs.now at returns.now stars) }
{
    match returns {
        Returns::Void(_) => {
            if stars > 0 {
                Ok(Err(wrong_type(at)))
            } else {
                Ok(Ok(None))
            }
        }
        Returns::Of(base) => {
            let found = base_type(structs, base)?;
            let sizes = Items::new(alloc);
            let ty = with_base(alloc, structs.len(), stars, sizes.as_slice(), at, found)?;
            Ok(some_of(as_scalar(at, ty)))
        }
    }
}

// The signature, or the first fault in the result and the parameters.
fn concluded(returned: Result<Option<Ty>, TypeFault>, found: Listed) -> Result<Signature, TypeFault>
    ensures { result ≡ concluded_by returned found }
{
    let Listed {
        names: _names,
        types,
        fault,
    } = found;
    match returned {
        Ok(result) => match fault {
            None => Ok(Signature {
                result,
                params: types,
            }),
            Some(fault) => Err(fault),
        },
        Err(first) => match fault {
            None => Err(first),
            Some(fault) => Err(sooner(first, fault)),
        },
    }
}

/// What a head declares, of a definition or of a prototype, behind these structs, or the first rule that it breaks.
pub fn signature_of(
    alloc: Global,
    structs: &[Struct],
    head: &Head,
    defined: bool,
) -> Result<Result<Signature, TypeFault>, AllocError>
    ensures exact { IfOk result (λ v. Exact (DeclaresFunction structs.now defined head.now) (MisdeclaresFunction structs.now defined head.now) v) }
    ensures verdict { IfOk result (λ v. v ≡ verdict_on structs.now defined head.now) }
{
    let returned = result_type(alloc, structs, head.span, &head.returns, head.stars)?;
    let found = params(alloc, structs, defined, head.params.as_slice())?;
    Ok(concluded(returned, found))
}
