//! The value of an expression, the place of an lvalue and the value of a pointer expression, by recursion on the tree
//! (C11 6.5).
ghost use Rattle.std.specs.Prelude.{◌≡◌};
ghost use Rattle.ax_meaning.specs.Types.{cells_of, sizes_of, element_of, elements_of, offset_of, type_of};
ghost use Rattle.ax_meaning.specs.Values.{value_of, atom_of, place_of, pointer_of, address_of};

use crate::layout::Layout;
use crate::operators::{binary_on, choice, settled, unary_on};
use crate::pointers::{
    backward_on, deref_on, differ_on, first_on, forward_on, further_on, same_on,
};
use crate::store::{int_at, named, pointer_at};
use crate::types::{cells, element, elements, member_offset, place_type};
use ax_meaning::{Place, Pointer, Store, Why};
use ax_prog::{Atom, Expr, Lval, Pexpr};

/// The value of an `int` expression, or the cause of its first undefined act.
#[cycle(values)]
#[tactic(auto, using(ax_meaning::proofs::Trees::values))]
pub fn value(tree: &Expr, layout: &Layout, store: &Store) -> Result<i32, Why>
    ensures { result ≡ value_of layout.now.program.now store.now tree.now }
{
    match tree {
        Expr::Num(n) => Ok(*n),
        Expr::Atom(a) => atom_value(a.get(), layout, store),
        Expr::Un(op, a) => unary_on(*op, value(a.get(), layout, store)),
        Expr::Bin(op, a, b) => {
            let left = value(a.get(), layout, store);
            match settled(*op, left) {
                Some(all) => all,
                None => binary_on(*op, left, value(b.get(), layout, store)),
            }
        }
        Expr::Cond(f, a, b) => match choice(value(f.get(), layout, store)) {
            Err(why) => Err(why),
            Ok(true) => value(a.get(), layout, store),
            Ok(false) => value(b.get(), layout, store),
        },
    }
}

/// The value of an atom: the int that is read, or the truth of a comparison of pointers.
#[cycle(values)]
#[tactic(auto, using(ax_meaning::proofs::Trees::values))]
pub fn atom_value(tree: &Atom, layout: &Layout, store: &Store) -> Result<i32, Why>
    ensures { result ≡ atom_of layout.now.program.now store.now tree.now }
{
    match tree {
        Atom::Read(place) => int_at(store, place_at(place, layout, store)),
        Atom::Same(p, q) => {
            let p = pointer(p, layout, store);
            same_on(p, pointer(q, layout, store))
        }
        Atom::Differ(p, q) => {
            let p = pointer(p, layout, store);
            differ_on(p, pointer(q, layout, store))
        }
    }
}

/// The place of an lvalue, or the cause of its first undefined act.
#[cycle(values)]
#[tactic(auto, using(ax_meaning::proofs::Trees::values))]
pub fn place_at(tree: &Lval, layout: &Layout, store: &Store) -> Result<Place, Why>
    ensures { result ≡ place_of layout.now.program.now store.now tree.now }
{
    match tree {
        Lval::Var(id) => named(store, *id),
        Lval::Deref(p) => deref_on(pointer(p.get(), layout, store)),
        Lval::Field(place, at) => {
            let whole = place.get();
            let offset = offset_at(whole, *at, layout);
            further_on(offset, place_at(whole, layout, store))
        }
    }
}

/// The cells before a member of the struct at a place.
fn offset_at(whole: &Lval, at: u32, layout: &Layout) -> u32
    ensures { result ≡ offset_of (sizes_of layout.now.program.now) layout.now.program.now.structs (type_of layout.now.program.now whole.now) at }
{
    let ty = place_type(layout.program, whole, &layout.int);
    member_offset(&layout.sizes, &layout.program.structs, ty, at)
}

/// The cells of an element of the array at a place.
fn element_cells(whole: &Lval, layout: &Layout) -> u32
    ensures { result ≡ cells_of (sizes_of layout.now.program.now) (element_of (type_of layout.now.program.now whole.now)) }
{
    let ty = place_type(layout.program, whole, &layout.int);
    cells(&layout.sizes, element(&layout.int, ty))
}

/// The number of elements of the array at a place.
fn element_count(whole: &Lval, layout: &Layout) -> u32
    ensures { result ≡ elements_of (type_of layout.now.program.now whole.now) }
{
    elements(place_type(layout.program, whole, &layout.int))
}

/// The cells of the type of a place.
fn place_cells(whole: &Lval, layout: &Layout) -> u32
    ensures { result ≡ cells_of (sizes_of layout.now.program.now) (type_of layout.now.program.now whole.now) }
{
    cells(
        &layout.sizes,
        place_type(layout.program, whole, &layout.int),
    )
}

/// The value of a pointer expression, or the cause of its first undefined act.
#[cycle(values)]
#[tactic(auto, using(ax_meaning::proofs::Trees::values))]
pub fn pointer(tree: &Pexpr, layout: &Layout, store: &Store) -> Result<Pointer, Why>
    ensures { result ≡ pointer_of layout.now.program.now store.now tree.now }
{
    match tree {
        Pexpr::Null => Ok(Pointer::Null),
        Pexpr::Read(place) => pointer_at(store, place_at(place.get(), layout, store)),
        Pexpr::Decay(place) => {
            let whole = place.get();
            let size = element_cells(whole, layout);
            let count = element_count(whole, layout);
            first_on(size, count, place_at(whole, layout, store))
        }
        Pexpr::Address(place) => address(place.get(), layout, store),
        Pexpr::Plus(p, i) => {
            let p = pointer(p.get(), layout, store);
            forward_on(p, value(i.get(), layout, store))
        }
        Pexpr::Minus(p, i) => {
            let p = pointer(p.get(), layout, store);
            backward_on(p, value(i.get(), layout, store))
        }
    }
}

/// `&place`: of `&*p` it is `p`, without access.
#[cycle(values)]
#[tactic(auto, using(ax_meaning::proofs::Trees::values))]
fn address(tree: &Lval, layout: &Layout, store: &Store) -> Result<Pointer, Why>
    ensures { result ≡ address_of layout.now.program.now store.now tree.now }
{
    match tree {
        Lval::Deref(p) => pointer(p.get(), layout, store),
        Lval::Var(id) => {
            let size = place_cells(tree, layout);
            first_on(size, 1, named(store, *id))
        }
        Lval::Field(place, at) => {
            let size = place_cells(tree, layout);
            let whole = place.get();
            let offset = offset_at(whole, *at, layout);
            first_on(size, 1, further_on(offset, place_at(whole, layout, store)))
        }
    }
}
