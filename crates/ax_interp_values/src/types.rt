//! The cells of types, and the types of places (C11 6.2.5, 6.7.2.1, 6.7.6.2).
ghost use Rattle.std.specs.Prelude.{◌≡◌, IfOk, length, slice_get};
ghost use Rattle.ax_meaning.specs.Types.{cells_of, cells_before as before_of, sizes_of, element_of, elements_of, pointee_of, field_of, offset_of, type_of, target_of, type_of_var};

use crate::pointers::numbered;
use ax_prog::{Lval, Pexpr, Program, Struct, Ty, VarId};
use sqlite_items::Items;
use std::alloc::{AllocError, Global};

/// How many cells a type has, where the structs have these numbers of cells.
#[tactic(auto, using(ax_meaning::proofs::Trees::types))]
pub fn cells(sizes: &Items<u32>, ty: &Ty) -> u32
    ensures { result ≡ cells_of sizes.now ty.now }
{
    match ty {
        Ty::Int => 1,
        Ty::Ptr(_) => 1,
        Ty::Array(t, n) => numbered(*n as u64 * cells(sizes, t.get()) as u64),
        Ty::Struct(k) => match sizes.get(k.0 as usize) {
            None => 0,
            Some(n) => *n,
        },
    }
}

#[tactic(auto, using(ax_meaning::proofs::Trees::types))]
fn cells_before(sizes: &Items<u32>, fields: &[(Items<u8>, Ty)], at: usize) -> u32
    ensures { result ≡ before_of sizes.now fields.now at }
{
    match fields {
        [] => 0,
        [field, rest @ ..] => {
            if at == 0 {
                0
            } else {
                numbered(cells(sizes, &field.1) as u64 + cells_before(sizes, rest, at - 1) as u64)
            }
        }
    }
}

/// The numbers of cells of a program's structs.
pub fn struct_sizes(alloc: Global, program: &Program) -> Result<Items<u32>, AllocError>
    ensures { IfOk result (λ it. it ≡ sizes_of program.now) }
{
    let mut sizes = Items::new(alloc);
    for def in program.structs.as_slice() {
        let fields = def.fields.as_slice();
        let size = cells_before(&sizes, fields, fields.len());
        sizes.push(size)?;
    }
    Ok(sizes)
}

/// The cells of a variable's type.
pub fn cells_of_var(sizes: &Items<u32>, program: &Program, id: VarId) -> u32
    ensures { result ≡ cells_of sizes.now (type_of_var (slice_get program.now.vars id.0)) }
{
    match program.vars.get(id.0 as usize) {
        None => 1,
        Some(var) => cells(sizes, &var.ty),
    }
}

#[tactic(auto, using(ax_meaning::proofs::Trees::types))]
fn pointee<'a>(int: &'a Ty, ty: &'a Ty) -> &'a Ty
    requires { int.now ≡ Ty.Int }
    ensures { result.now ≡ pointee_of ty.now }
{
    match ty {
        Ty::Ptr(t) => t.get(),
        Ty::Int | Ty::Array(_, _) | Ty::Struct(_) => int,
    }
}

/// The type of an array's elements, or this `int` where it is no array.
#[tactic(auto, using(ax_meaning::proofs::Trees::types))]
pub fn element<'a>(int: &'a Ty, ty: &'a Ty) -> &'a Ty
    requires { int.now ≡ Ty.Int }
    ensures { result.now ≡ element_of ty.now }
{
    match ty {
        Ty::Array(t, _) => t.get(),
        Ty::Int | Ty::Ptr(_) | Ty::Struct(_) => int,
    }
}

/// The number of an array's elements, or 1 where it is no array.
#[tactic(auto, using(ax_meaning::proofs::Trees::types))]
pub fn elements(ty: &Ty) -> u32
    ensures { result ≡ elements_of ty.now }
{
    match ty {
        Ty::Array(_, n) => *n,
        Ty::Int | Ty::Ptr(_) | Ty::Struct(_) => 1,
    }
}

/// The type of a place, or this `int` where it has none.
#[cycle(types)]
#[tactic(auto, using(ax_meaning::proofs::Trees::types))]
pub fn place_type<'a>(program: &'a Program, place: &Lval, int: &'a Ty) -> &'a Ty
    requires { int.now ≡ Ty.Int }
    ensures { result.now ≡ type_of program.now place.now }
{
    match place {
        Lval::Var(id) => match program.vars.get(id.0 as usize) {
            None => int,
            Some(var) => &var.ty,
        },
        Lval::Deref(p) => target_type(program, p.get(), int),
        Lval::Field(place, at) => {
            let whole = place_type(program, place.get(), int);
            field(int, &program.structs, whole, *at)
        }
    }
}

/// The type that a pointer expression points at, or this `int` where it has none.
#[cycle(types)]
#[tactic(auto, using(ax_meaning::proofs::Trees::types))]
pub fn target_type<'a>(program: &'a Program, tree: &Pexpr, int: &'a Ty) -> &'a Ty
    requires { int.now ≡ Ty.Int }
    ensures { result.now ≡ target_of program.now tree.now }
{
    match tree {
        Pexpr::Null => int,
        Pexpr::Read(place) => pointee(int, place_type(program, place.get(), int)),
        Pexpr::Decay(place) => element(int, place_type(program, place.get(), int)),
        Pexpr::Address(place) => place_type(program, place.get(), int),
        Pexpr::Plus(p, _) => target_type(program, p.get(), int),
        Pexpr::Minus(p, _) => target_type(program, p.get(), int),
    }
}

#[tactic(auto, using(ax_meaning::proofs::Trees::types))]
fn field<'a>(int: &'a Ty, structs: &'a Items<Struct>, ty: &Ty, at: u32) -> &'a Ty
    requires { int.now ≡ Ty.Int }
    ensures { result.now ≡ field_of structs.now ty.now at }
{
    match ty {
        Ty::Struct(k) => match structs.get(k.0 as usize) {
            None => int,
            Some(s) => match s.fields.get(at as usize) {
                None => int,
                Some(f) => &f.1,
            },
        },
        Ty::Int | Ty::Ptr(_) | Ty::Array(_, _) => int,
    }
}

/// The cells before a member of a struct, or 0 where the type is none.
#[tactic(auto, using(ax_meaning::proofs::Trees::types))]
pub fn member_offset(sizes: &Items<u32>, structs: &Items<Struct>, ty: &Ty, at: u32) -> u32
    ensures { result ≡ offset_of sizes.now structs.now ty.now at }
{
    match ty {
        Ty::Struct(k) => match structs.get(k.0 as usize) {
            None => 0,
            Some(s) => cells_before(sizes, s.fields.as_slice(), at as usize),
        },
        Ty::Int | Ty::Ptr(_) | Ty::Array(_, _) => 0,
    }
}
