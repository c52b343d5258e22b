//! Objects of a store, seen from outside: no source shows where their cells lie, or a place behind an object that has ended.

use ax_interp_values::store::{begin, end_var, int_at, leave, stored_at, write};
use ax_meaning::{Cell, Extent, Place, Pointer, Store, Why};
use ax_prog::VarId;
use sqlite_items::Items;
use std::alloc::{AllocError, Global};

/// The store of `int x = 1; int a[3] = {5, 6, 7}; int *p = 0;` and of an object of three cells, of which only the last is stored.
fn sample(alloc: Global) -> Result<Store, AllocError> {
    let mut store = Store {
        cells: Items::new(alloc),
        objects: Items::new(alloc),
        named: Items::from_slice(alloc, &[None, None, None, None])?,
    };
    let x = Items::from_slice(alloc, &[Cell::Int(1)])?;
    begin(VarId(0), x, &mut store)?;
    let a = Items::from_slice(alloc, &[Cell::Int(5), Cell::Int(6), Cell::Int(7)])?;
    begin(VarId(1), a, &mut store)?;
    let p = Items::from_slice(alloc, &[Cell::Ptr(Pointer::Null)])?;
    begin(VarId(2), p, &mut store)?;
    let s = Items::from_slice(alloc, &[Cell::Empty, Cell::Empty, Cell::Int(9)])?;
    begin(VarId(3), s, &mut store)?;
    Ok(store)
}

#[test]
fn an_object_is_dead_after_its_end(rt: HostRuntime) -> Result<(), AllocError> {
    let alloc = rt.alloc();
    let mut store = sample(alloc)?;
    let at = Place { object: 1, cell: 2 };
    assert_eq!(rt; write(&mut store, at, Cell::Int(8)), Ok(()));
    assert_eq!(rt; int_at(&store, Ok(at)), Ok(8));
    end_var(VarId(1), &mut store);
    assert_eq!(rt; stored_at(&store, at), Err(Why::DeadObject));
    let past = Place { object: 1, cell: 3 };
    assert_eq!(rt;
        write(&mut store, past, Cell::Int(8)),
        Err(Why::OutOfBounds)
    );
    leave(2, Items::new(alloc), &mut store);
    let last = store.objects.get(3).copied();
    let wanted = Extent {
        live: false,
        first: 5,
        count: 3,
    };
    assert_eq!(rt; last, Some(wanted));
    Ok(())
}
