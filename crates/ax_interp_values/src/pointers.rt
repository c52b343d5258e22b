//! Pointers and places (C11 6.3.2.1p3, 6.5.2.3, 6.5.3.2, 6.5.6p8, 6.5.9p6).
ghost use Rattle.std.specs.Prelude.{◌≡◌, Ok};
ghost use Rattle.ax_meaning.specs.Answer.{with_value, with_values};
ghost use Rattle.ax_meaning.specs.Types.{cell_number};
ghost use Rattle.ax_meaning.specs.Values.{cell_of, deref as deref_of, at_index as at_index_of, moved, moved_back, same_pointer as same_is, same_value, differ_value, first_of_array, further as further_of};

use crate::operators::truth;
use ax_meaning::{Place, Pointer, Spot, Why};

/// The number as one of a cell: larger ones than 32 bits hold count as the last.
pub fn numbered(n: u64) -> u32
    ensures { result ≡ cell_number n }
{
    if n < 4294967295 { n as u32 } else { 4294967295 }
}

/// The cell at which an element begins.
pub fn cell_of_spot(s: Spot) -> u32
    ensures { result ≡ cell_of s }
{
    let past = s.size as u64 * s.index as u64;
    numbered(s.start as u64 + past)
}

fn deref(p: Pointer) -> Result<Place, Why>
    ensures { result ≡ deref_of p }
{
    match p {
        Pointer::Null => Err(Why::NullAccess),
        Pointer::At(s) => {
            if s.index < s.count {
                Ok(Place {
                    object: s.object,
                    cell: cell_of_spot(s),
                })
            } else {
                Err(Why::OutOfBounds)
            }
        }
    }
}

fn at_index(s: Spot, index: i64) -> Result<Pointer, Why>
    ensures { result ≡ at_index_of s index }
{
    if index < 0 || index > s.count as i64 {
        return Err(Why::OutOfBounds);
    }
    Ok(Pointer::At(Spot {
        object: s.object,
        start: s.start,
        size: s.size,
        count: s.count,
        index: index as u32,
    }))
}

/// The pointer so many elements further on.
pub fn forward(p: Pointer, i: i32) -> Result<Pointer, Why>
    ensures { result ≡ moved p i }
{
    match p {
        Pointer::Null => Err(Why::NullAccess),
        Pointer::At(s) => at_index(s, s.index as i64 + i as i64),
    }
}

/// The pointer so many elements further back.
pub fn backward(p: Pointer, i: i32) -> Result<Pointer, Why>
    ensures { result ≡ moved_back p i }
{
    match p {
        Pointer::Null => Err(Why::NullAccess),
        Pointer::At(s) => at_index(s, s.index as i64 - i as i64),
    }
}

fn further(n: u32, at: Place) -> Place
    ensures { Ok result ≡ further_of n at }
{
    Place {
        object: at.object,
        cell: numbered(at.cell as u64 + n as u64),
    }
}

/// Whether two pointers are equal: both null, or in one object at one cell.
pub fn same_pointer(p: Pointer, q: Pointer) -> bool
    ensures { result ≡ same_is p q }
{
    match (p, q) {
        (Pointer::Null, Pointer::Null) => true,
        (Pointer::At(s), Pointer::At(t)) => {
            s.object == t.object && cell_of_spot(s) == cell_of_spot(t)
        }
        _ => false,
    }
}

/// The place that a pointer points at.
pub fn deref_on(p: Result<Pointer, Why>) -> Result<Place, Why>
    ensures { result ≡ with_value deref_of p }
{
    match p {
        Err(why) => Err(why),
        Ok(p) => deref(p),
    }
}

/// The place so many cells further on in its object.
pub fn further_on(n: u32, at: Result<Place, Why>) -> Result<Place, Why>
    ensures { result ≡ with_value (further_of n) at }
{
    match at {
        Err(why) => Err(why),
        Ok(at) => Ok(further(n, at)),
    }
}

/// The first of so many elements of so many cells, which begin at this place.
pub fn first_on(size: u32, count: u32, at: Result<Place, Why>) -> Result<Pointer, Why>
    ensures { result ≡ with_value (first_of_array size count) at }
{
    match at {
        Err(why) => Err(why),
        Ok(at) => Ok(Pointer::At(Spot {
            object: at.object,
            start: at.cell,
            size,
            count,
            index: 0,
        })),
    }
}

pub fn forward_on(p: Result<Pointer, Why>, i: Result<i32, Why>) -> Result<Pointer, Why>
    ensures { result ≡ with_values moved p i }
{
    match p {
        Err(why) => Err(why),
        Ok(p) => match i {
            Err(why) => Err(why),
            Ok(n) => forward(p, n),
        },
    }
}

pub fn backward_on(p: Result<Pointer, Why>, i: Result<i32, Why>) -> Result<Pointer, Why>
    ensures { result ≡ with_values moved_back p i }
{
    match p {
        Err(why) => Err(why),
        Ok(p) => match i {
            Err(why) => Err(why),
            Ok(n) => backward(p, n),
        },
    }
}

pub fn same_on(p: Result<Pointer, Why>, q: Result<Pointer, Why>) -> Result<i32, Why>
    ensures { result ≡ with_values same_value p q }
{
    match p {
        Err(why) => Err(why),
        Ok(p) => match q {
            Err(why) => Err(why),
            Ok(q) => Ok(truth(same_pointer(p, q))),
        },
    }
}

pub fn differ_on(p: Result<Pointer, Why>, q: Result<Pointer, Why>) -> Result<i32, Why>
    ensures { result ≡ with_values differ_value p q }
{
    match p {
        Err(why) => Err(why),
        Ok(p) => match q {
            Err(why) => Err(why),
            Ok(q) => Ok(truth(!same_pointer(p, q))),
        },
    }
}
