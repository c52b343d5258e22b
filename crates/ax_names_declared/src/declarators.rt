//! What stars and sizes make of the type of a base.
ghost use Rattle.std.specs.Prelude.{◌≡◌, ℕ, pos, IfOk};
ghost use Rattle.ax_names_declared.specs.Denotations.{count_of as count_in, pointers_to as pointers, arrays_of as arrays, filled_size, filled as filled_with};
ghost use Rattle.ax_names_declared.specs.Verdicts.{are_sized as sized, is_complete as completed, declarator as verdict_of, fault_with, with_base as verdict_with};

use crate::firsts::{earlier, unless};
use ax_names_types::faults::{sooner, wrong_type};
use ax_names_types::types::struct_of;
use ax_names_types::{TypeFault, TypeKind};
use ax_parse_grammar::tree::Size;
use ax_prog::{Span, Ty};
use sqlite_items::{Boxed, Items};
use std::alloc::{AllocError, Global};

/// The number in square brackets; 0 where there is none.
pub fn count_of(size: &Size) -> u32
    ensures value { result ≡ count_in size.now.count }
{
    match size.count {
        None => 0,
        Some(n) => { if n > 0 { n as u32 } else { 0 } }
    }
}

/// Whether each size is a number above 0.
pub fn are_sized(sizes: &[Size]) -> bool
    ensures { result ≡ sized sizes.now }
{
    sizes.iter().all(|size| count_of(size) > 0)
}

// A pointer for each star.
fn pointers_to(alloc: Global, stars: usize, base: Ty) -> Result<Ty, AllocError>
    ensures { IfOk result (λ u. u ≡ pointers stars base) }
{
    let mut ty = base;
    for _star in 0..stars {
        ty = Ty::Ptr(Boxed::new(alloc, ty)?);
    }
    Ok(ty)
}

// An array for each size.
fn arrays_of(alloc: Global, sizes: &[Size], of: Ty) -> Result<Ty, AllocError>
    ensures { IfOk result (λ u. u ≡ arrays sizes.now of) }
{
    let mut ty = of;
    let mut at = sizes.len();
    while at > 0 {
        at -= 1;
        let count = count_of(&sizes[at]);
        ty = Ty::Array(Boxed::new(alloc, ty)?, count);
    }
    Ok(ty)
}

/// Whether an object may be made of a base of this type, where so many structs are complete.
pub fn is_complete(complete: usize, stars: usize, base: &Ty) -> bool
    ensures { result ≡ completed complete stars base.now }
{
    if stars > 0 {
        return true;
    }
    match struct_of(base) {
        None => true,
        Some(id) => (id.0 as usize) < complete,
    }
}

// The type of a declarator that stands here.
fn declarator(
    alloc: Global,
    complete: usize,
    stars: usize,
    sizes: &[Size],
    at: Span,
    base: Ty,
) -> Result<Result<Ty, TypeFault>, AllocError>
    ensures { IfOk result (λ v. v ≡ verdict_of complete stars sizes.now at base) }
{
    let sized = unless(are_sized(sizes), TypeKind::WrongType, at);
    let within = unless(
        is_complete(complete, stars, &base),
        TypeKind::RecursiveStruct,
        at,
    );
    match earlier(sized, within) {
        Some(fault) => Ok(Err(fault)),
        None => {
            let element = pointers_to(alloc, stars, base)?;
            Ok(Ok(arrays_of(alloc, sizes, element)?))
        }
    }
}

// The fault of a declarator whose base has this one.
fn faulty(sizes: &[Size], at: Span, fault: TypeFault) -> TypeFault
    ensures { result ≡ fault_with sizes.now at fault }
{
    if are_sized(sizes) {
        fault
    } else {
        sooner(fault, wrong_type(at))
    }
}

/// The type of a declarator that stands here, with the verdict on its base.
pub fn with_base(
    alloc: Global,
    complete: usize,
    stars: usize,
    sizes: &[Size],
    at: Span,
    base: Result<Ty, TypeFault>,
) -> Result<Result<Ty, TypeFault>, AllocError>
    ensures { IfOk result (λ v. v ≡ verdict_with complete stars sizes.now at base) }
{
    match base {
        Ok(base) => declarator(alloc, complete, stars, sizes, at, base),
        Err(fault) => Ok(Err(faulty(sizes, at, fault))),
    }
}

// A number of numbers as a count. Want of memory comes long before 2^31 of them.
fn count(n: usize) -> Result<i32, AllocError>
    ensures { IfOk result (λ m. m ≡ pos n) }
{
    if n < 2147483648 {
        Ok(n as i32)
    } else {
        Err(AllocError)
    }
}

fn sized(size: &Size, n: i32) -> Size
    ensures { (k : ℕ) → n ≡ pos k → result ≡ filled_size size.now k }
{
    match size.count {
        None => Size {
            span: size.span,
            count: Some(n),
        },
        Some(_) => *size,
    }
}

/// The sizes of an array with a brace list of so many numbers: an empty first size is that number.
pub fn filled(alloc: Global, numbers: usize, sizes: &[Size]) -> Result<Items<Size>, AllocError>
    ensures { IfOk result (λ all. all ≡ filled_with numbers sizes.now) }
{
    let n = count(numbers)?;
    let mut all = Items::from_slice(alloc, sizes)?;
    match sizes.get(0) {
        None => Ok(all),
        Some(first) => {
            all.set(0, sized(first, n));
            Ok(all)
        }
    }
}
