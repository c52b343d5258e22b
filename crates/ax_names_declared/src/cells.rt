//! How many cells objects have, counted to one more than an object may have.
ghost use Rattle.std.specs.Prelude.{◌≡◌, ◌<◌, [], ◌∷◌, ◌++◌, OnOk};
ghost use Rattle.ax_names_declared.specs.Cells.{capped as capped_at, cells_of, cells_in, measured};
ghost use Rattle.ax_names_types.specs.Types.{struct_of as struct_of_ty};
ghost use Rattle.ax_names_declared.specs.Verdicts.{cells_at as cells_of_struct, unit_cells as cells_of_unit, product, fits as fit};

use crate::declarators::count_of;
use ax_names_types::TypeFault;
use ax_names_types::types::struct_of;
use ax_parse_grammar::tree::Size;
use ax_prog::{Struct, StructId, Ty};
use sqlite_items::Items;
use std::alloc::AllocError;

/// A number of cells; one more than the most stands for all larger numbers.
pub fn capped(n: u64) -> u64
    ensures { result ≡ capped_at n }
{
    if n < 4097 { n } else { 4097 }
}

// The cells of a base.
fn cells_at(cells: &[u32], id: Option<StructId>) -> u64
    ensures value { result ≡ cells_of_struct cells.now id }
    ensures small { result < 4294967296 }
{
    match id {
        None => 1,
        Some(id) => match cells.get(id.0 as usize) {
            None => 0,
            Some(n) => *n as u64,
        },
    }
}

// The cells of what stars make of a base.
fn unit_cells(cells: &[u32], stars: usize, base: &Ty) -> u64
    ensures { result ≡ cells_of_unit cells.now stars (struct_of_ty base.now) }
{
    if stars > 0 {
        return 1;
    }
    cells_at(cells, struct_of(base))
}

/// The cells of an array of these sizes.
pub fn array_cells(sizes: &[Size], unit: u64) -> u64
    ensures { result ≡ capped_at (product sizes.now unit) }
{
    let mut count = capped(unit);
    let mut at = sizes.len();
    while at > 0 {
        at -= 1;
        count = capped(count_of(&sizes[at]) as u64 * count);
    }
    count
}

// The cells of a type.
#[tactic(auto, using(crate::proofs::Measured::layers))]
fn type_cells(cells: &[u32], ty: &Ty) -> u64
    ensures { result ≡ capped_at (cells_of cells.now ty.now) }
{
    let mut at = ty;
    let mut times = 1;
    loop {
        match at {
            Ty::Int => return times,
            Ty::Ptr(_) => return times,
            Ty::Struct(id) => return capped(times * cells_at(cells, Some(*id))),
            Ty::Array(of, count) => {
                times = capped(times * *count as u64);
                at = of.get();
            }
        }
    }
}

// The cells of a struct with these members.
fn field_cells(cells: &[u32], fields: &[(Items<u8>, Ty)]) -> u64
    ensures { result ≡ capped_at (cells_in cells.now fields.now) }
{
    let mut sum = 0;
    for field in fields {
        sum = capped(sum + type_cells(cells, &field.1));
    }
    sum
}

/// Adds a struct behind the others, with its cells. Where memory is wanting, the lists may have grown.
#[tactic(auto, using(crate::proofs::Measured::measured_more))]
pub fn add_struct(
    structs: &mut Items<Struct>,
    cells: &mut Items<u32>,
    it: Struct,
) -> Result<(), AllocError>
    requires { cells.old ≡ measured structs.old }
    ensures structs { OnOk result (structs.new ≡ structs.old ++ it ∷ []) }
    ensures cells { OnOk result (cells.new ≡ measured structs.new) }
{
    let count = field_cells(cells.as_slice(), it.fields.as_slice());
    cells.push(count as u32)?;
    structs.push(it)?;
    Ok(())
}

/// Whether a variable isn't too large.
pub fn fits(cells: &[u32], stars: usize, sizes: &[Size], base: &Result<Ty, TypeFault>) -> bool
    ensures { result ≡ fit cells.now stars sizes.now base.now }
{
    match base {
        Err(_) => true,
        Ok(base) => array_cells(sizes, unit_cells(cells, stars, base)) < 4097,
    }
}
