//! Zeros of types (C11 6.7.9p10). The structs that objects have within them get theirs once; no others get any.
ghost use Rattle.std.specs.Prelude.{◌≡◌, [], IfOk, false, length, replicate, slice_get};
ghost use Rattle.ax_meaning.specs.Types.{fields_of};
ghost use Rattle.ax_meaning.specs.Runs.{repeated as repeated_of, zeros as zeros_of, zeros_of_fields as zeros_of_members};
ghost use Rattle.ax_interp_acts.specs.Within.{struct_in as struct_within, left_out, with_struct, with_members, with_globals, unless_left, with_inner, cells_unless, zeros_by, marks_of};

use ax_meaning::{Cell, Pointer};
use ax_prog::{Program, Struct, StructId, Ty};
use sqlite_items::Items;
use std::alloc::{AllocError, Global};

fn repeated(alloc: Global, count: u32, cells: &Items<Cell>) -> Result<Items<Cell>, AllocError>
    ensures { IfOk result (λ it. it ≡ repeated_of count cells.now) }
{
    let mut all = Items::new(alloc);
    if cells.is_empty() {
        return Ok(all);
    }
    for at in 0..count {
        all.append(Items::from_slice(alloc, cells.as_slice())?)?;
    }
    Ok(all)
}

/// A zero for each int of a type and null for each pointer, where these are the zeros of the structs.
#[tactic(auto, using(ax_meaning::proofs::Trees::types))]
pub fn zeros(
    alloc: Global,
    structs: &Items<Items<Cell>>,
    ty: &Ty,
) -> Result<Items<Cell>, AllocError>
    ensures { IfOk result (λ it. it ≡ zeros_of structs.now ty.now) }
{
    match ty {
        Ty::Int => Items::from_slice(alloc, &[Cell::Int(0)]),
        Ty::Ptr(_) => Items::from_slice(alloc, &[Cell::Ptr(Pointer::Null)]),
        Ty::Array(t, n) => {
            let cells = zeros(alloc, structs, t.get())?;
            repeated(alloc, *n, &cells)
        }
        Ty::Struct(k) => match structs.get(k.0 as usize) {
            None => Ok(Items::new(alloc)),
            Some(cells) => Items::from_slice(alloc, cells.as_slice()),
        },
    }
}

fn zeros_of_fields(
    alloc: Global,
    structs: &Items<Items<Cell>>,
    fields: &[(Items<u8>, Ty)],
) -> Result<Items<Cell>, AllocError>
    ensures { IfOk result (λ it. it ≡ zeros_of_members structs.now fields.now) }
{
    let mut all = Items::new(alloc);
    for field in fields {
        all.append(zeros(alloc, structs, &field.1)?)?;
    }
    Ok(all)
}

// The struct that a type is, or that the elements of an array are in the end.
fn struct_in(ty: &Ty) -> Option<StructId>
    ensures { result ≡ struct_within ty.now }
{
    match ty {
        Ty::Int => None,
        Ty::Ptr(_) => None,
        Ty::Array(t, _) => struct_in(t.get()),
        Ty::Struct(k) => Some(*k),
    }
}

// Whether the struct of this number is left out.
fn is_left_out(marks: &Items<bool>, at: usize) -> bool
    ensures { result ≡ left_out (slice_get marks.now at) }
{
    match marks.get(at) {
        None => false,
        Some(is_needed) => !*is_needed,
    }
}

// Marks what a type has within it.
fn need(ty: &Ty, marks: &mut Items<bool>)
    ensures { marks.new ≡ with_struct (struct_within ty.now) marks.old }
{
    match struct_in(ty) {
        None => {}
        Some(k) => {
            let at = k.0 as usize;
            if at < marks.len() {
                marks.set(at, true);
            }
        }
    }
}

fn need_members(fields: &[(Items<u8>, Ty)], marks: &mut Items<bool>)
    ensures { marks.new ≡ with_members fields.now marks.old }
{
    for field in fields {
        need(&field.1, marks);
    }
}

fn need_globals(program: &Program, marks: &mut Items<bool>)
    ensures { marks.new ≡ with_globals program.now program.now.globals marks.old }
{
    for global in program.globals.as_slice() {
        match program.vars.get(global.0.0 as usize) {
            None => {}
            Some(var) => need(&var.ty, marks),
        }
    }
}

// Marks what the struct of this number has within it, where it is needed itself.
fn need_within(structs: &Items<Struct>, at: usize, marks: &mut Items<bool>)
    ensures { marks.new ≡ unless_left (left_out (slice_get marks.old at)) (fields_of (slice_get structs.now at)) marks.old }
{
    if !is_left_out(marks, at) {
        match structs.get(at) {
            None => {}
            Some(s) => need_members(s.fields.as_slice(), marks),
        }
    }
}

fn need_inner(structs: &Items<Struct>, marks: &mut Items<bool>)
    ensures { marks.new ≡ with_inner structs.now (length structs.now) marks.old }
{
    let mut at = structs.len();
    while at > 0 {
        at -= 1;
        need_within(structs, at, marks);
    }
}

fn no_marks(alloc: Global, count: usize) -> Result<Items<bool>, AllocError>
    ensures { IfOk result (λ it. it ≡ replicate count false) }
{
    let mut marks = Items::new(alloc);
    for at in 0..count {
        marks.push(false)?;
    }
    Ok(marks)
}

// The marks of the structs that a program's globals have within them.
fn marked(alloc: Global, program: &Program) -> Result<Items<bool>, AllocError>
    ensures { IfOk result (λ it. it ≡ marks_of program.now) }
{
    let mut marks = no_marks(alloc, program.structs.len())?;
    need_globals(program, &mut marks);
    need_inner(&program.structs, &mut marks);
    Ok(marks)
}

fn cells_of_struct(
    alloc: Global,
    marks: &Items<bool>,
    done: &Items<Items<Cell>>,
    def: &Struct,
) -> Result<Items<Cell>, AllocError>
    ensures { IfOk result (λ it. it ≡ cells_unless (left_out (slice_get marks.now (length done.now))) (zeros_of_members done.now def.now.fields)) }
{
    if is_left_out(marks, done.len()) {
        return Ok(Items::new(alloc));
    }
    zeros_of_fields(alloc, done, def.fields.as_slice())
}

fn marked_zeros(
    alloc: Global,
    structs: &[Struct],
    marks: &Items<bool>,
) -> Result<Items<Items<Cell>>, AllocError>
    ensures { IfOk result (λ it. it ≡ zeros_by marks.now [] structs.now) }
{
    let mut done = Items::new(alloc);
    for def in structs {
        let cells = cells_of_struct(alloc, marks, &done, def)?;
        done.push(cells)?;
    }
    Ok(done)
}

/// The zeros of each struct that a program's globals have within them, and no cells for the others.
pub fn struct_zeros(alloc: Global, program: &Program) -> Result<Items<Items<Cell>>, AllocError>
    ensures { IfOk result (λ it. it ≡ zeros_by (marks_of program.now) [] program.now.structs) }
{
    let marks = marked(alloc, program)?;
    marked_zeros(alloc, program.structs.as_slice(), &marks)
}
