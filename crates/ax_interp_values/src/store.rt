//! Reads and changes of a store (C11 3.15, 6.2.4, 6.3.2.1p2).
ghost use Rattle.std.specs.Prelude.{◌≡◌, ◌+◌, ◌<◌, ℕ, List, Option, Ok, IfOk, OnErr, OnOk, length, nat_lt, slice_get};
ghost use Rattle.ax_prog.specs.declared.VarId.{VarId};
ghost use Rattle.ax_meaning.specs.declared.Extent.{Extent};
ghost use Rattle.ax_meaning.specs.Answer.{with_value};
ghost use Rattle.ax_meaning.specs.Store.{index_in, index_of as index_is, cell_at as cell_is, stored_in, int_in, pointer_in, stored_at as stored_is, int_at as int_is, pointer_at as pointer_is, write as written, place_named, begin as begun, end_object as object_ended, end_var as var_ended, end_vars as vars_ended, end_from as ended_from, leave as left};
ghost use Rattle.ax_interp_values.specs.Changes.{changed};

use ax_meaning::{Cell, Extent, Place, Pointer, Store, Why};
use ax_prog::VarId;
use sqlite_items::Items;
use std::alloc::AllocError;

fn lies_before(first: usize, at: usize, len: usize) -> bool
    ensures { result ≡ nat_lt (first + at) len }
{
    at < len && first < len - at
}

fn index_within(len: usize, object: Option<Extent>, at: usize) -> Result<usize, Why>
    ensures value { result ≡ index_in len object at }
    ensures within { IfOk result (λ i. i < len) }
{
    match object {
        None => Err(Why::DeadObject),
        Some(o) => {
            if at < o.count && lies_before(o.first, at, len) {
                if o.live {
                    Ok(o.first + at)
                } else {
                    Err(Why::DeadObject)
                }
            } else {
                Err(Why::OutOfBounds)
            }
        }
    }
}

/// The number of the cell at a place, among all cells. An object that has ended has none.
pub fn index_of(store: &Store, at: Place) -> Result<usize, Why>
    ensures value { result ≡ index_is store.now at }
    ensures within { IfOk result (λ i. i < length store.now.cells) }
{
    index_within(
        store.cells.len(),
        store.objects.get(at.object).copied(),
        at.cell as usize,
    )
}

/// What stands in the cell at a place.
pub fn cell_at(store: &Store, at: Place) -> Result<Cell, Why>
    ensures { result ≡ cell_is store.now at }
{
    match index_of(store, at) {
        Err(why) => Err(why),
        Ok(i) => match store.cells.get(i) {
            None => Err(Why::OutOfBounds),
            Some(cell) => Ok(*cell),
        },
    }
}

fn stored(cell: Cell) -> Result<Cell, Why>
    ensures { result ≡ stored_in cell }
{
    match cell {
        Cell::Empty => Err(Why::Uninit),
        Cell::Int(n) => Ok(Cell::Int(n)),
        Cell::Ptr(p) => Ok(Cell::Ptr(p)),
    }
}

fn int_of(cell: Cell) -> Result<i32, Why>
    ensures { result ≡ int_in cell }
{
    match cell {
        Cell::Int(n) => Ok(n),
        Cell::Empty => Err(Why::Uninit),
        Cell::Ptr(_) => Err(Why::Uninit),
    }
}

fn pointer_of(cell: Cell) -> Result<Pointer, Why>
    ensures { result ≡ pointer_in cell }
{
    match cell {
        Cell::Ptr(p) => Ok(p),
        Cell::Empty => Err(Why::Uninit),
        Cell::Int(_) => Err(Why::Uninit),
    }
}

/// What was stored at a place.
pub fn stored_at(store: &Store, at: Place) -> Result<Cell, Why>
    ensures { result ≡ stored_is store.now at }
{
    match cell_at(store, at) {
        Err(why) => Err(why),
        Ok(cell) => stored(cell),
    }
}

/// The int stored at a place.
pub fn int_at(store: &Store, at: Result<Place, Why>) -> Result<i32, Why>
    ensures { result ≡ with_value (int_is store.now) at }
{
    match at {
        Err(why) => Err(why),
        Ok(at) => match cell_at(store, at) {
            Err(why) => Err(why),
            Ok(cell) => int_of(cell),
        },
    }
}

/// The pointer stored at a place.
pub fn pointer_at(store: &Store, at: Result<Place, Why>) -> Result<Pointer, Why>
    ensures { result ≡ with_value (pointer_is store.now) at }
{
    match at {
        Err(why) => Err(why),
        Ok(at) => match cell_at(store, at) {
            Err(why) => Err(why),
            Ok(cell) => pointer_of(cell),
        },
    }
}

/// Stores a cell at a place. Where that is undefined, nothing changes.
pub fn write(store: &mut Store, at: Place, cell: Cell) -> Result<(), Why>
    ensures value { changed result store.new ≡ written store.old at cell }
    ensures err { OnErr result (store.new ≡ store.old) }
{
    match index_of(store, at) {
        Err(why) => Err(why),
        Ok(i) => {
            store.cells.set(i, cell);
            Ok(())
        }
    }
}

/// The place of the object that a variable names.
pub fn named(store: &Store, id: VarId) -> Result<Place, Why>
    ensures { result ≡ place_named (slice_get store.now.named id.0) }
{
    match store.named.get(id.0 as usize) {
        None => Err(Why::DeadObject),
        Some(None) => Err(Why::DeadObject),
        Some(Some(object)) => Ok(Place {
            object: *object,
            cell: 0,
        }),
    }
}

/// Begins the object of a variable with these cells.
pub fn begin(id: VarId, cells: Items<Cell>, store: &mut Store) -> Result<(), AllocError>
    ensures { OnOk result (store.new ≡ begun id cells store.old) }
{
    let object = store.objects.len();
    let first = store.cells.len();
    let count = cells.len();
    store.cells.append(cells)?;
    store.objects.push(Extent {
        live: true,
        first,
        count,
    })?;
    let at = id.0 as usize;
    if at < store.named.len() {
        store.named.set(at, Some(object));
    }
    Ok(())
}

fn end_object(objects: &mut Items<Extent>, at: usize)
    ensures { objects.new ≡ object_ended at objects.old }
{
    let old = objects.get(at).copied();
    match old {
        None => {}
        Some(object) => objects.set(
            at,
            Extent {
                live: false,
                first: object.first,
                count: object.count,
            },
        ),
    }
}

/// Ends the object that a variable names.
pub fn end_var(id: VarId, store: &mut Store)
    ensures { store.new ≡ var_ended id store.old }
{
    let named = store.named.get(id.0 as usize).copied();
    match named {
        None => {}
        Some(None) => {}
        Some(Some(object)) => end_object(&mut store.objects, object),
    }
}

/// Ends the objects from this number on, and gives the variables the names that they had before a call.
pub fn leave(from: usize, named: Items<Option<usize>>, store: &mut Store)
    ensures { store.new ≡ left from named store.old }
{
    end_from(from, &mut store.objects);
    store.named = named;
}

fn end_from(from: usize, objects: &mut Items<Extent>)
    ensures { objects.new ≡ ended_from from objects.old }
{
    for at in from..objects.len() {
        end_object(objects, at);
    }
}
