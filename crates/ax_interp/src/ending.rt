//! The objects of a call end with it. Those that its callees began have ended by then: they lie in gaps, which are passed
//! over, so that each object is ended once.
ghost use Rattle.std.specs.Prelude.{◌≡◌, ◌++◌, ◌∷◌, [], ◌≤◌, ◌<◌, ℕ, List, IsTrue, MatchOption, OnOk, length, slice_get};
ghost use Rattle.ax_meaning.specs.Store.{end_object as object_ended, end_from as ended_from, leave as left};
ghost use Rattle.ax_interp.specs.Gaps.{has_ended, EndedIn, AllEnded, StayEnded};

use crate::machine::Gap;
use ax_meaning::{Extent, Store};
use sqlite_items::Items;
use std::alloc::AllocError;

/// Ends the objects from this number on, and gives the variables the names that they had before a call. It passes over the
/// gaps, and all these objects become one.
pub fn leave(
    from: usize,
    named: Items<Option<usize>>,
    gaps: &mut Items<Gap>,
    store: &mut Store,
) -> Result<(), AllocError>
    requires { AllEnded gaps.old store.old.objects }
    ensures left { OnOk result (store.new ≡ left from named store.old) }
    ensures ended { OnOk result (AllEnded gaps.new store.new.objects) }
{
    let to = store.objects.len();
    let start = end_outside(from, gaps, &mut store.objects);
    store.named = named;
    gaps.push(Gap { from: start, to })
}

/// Ends the objects from this number on, and says from where on all have ended now. The gaps that reach to the number are
/// taken off, since they are part of that.
fn end_outside(from: usize, gaps: &mut Items<Gap>, objects: &mut Items<Extent>) -> usize
    requires { AllEnded gaps.old objects.old }
    ensures objects { objects.new ≡ ended_from from objects.old }
    ensures gaps { AllEnded gaps.new objects.new }
    ensures all { EndedIn result (length objects.new) objects.new }
{
    let mut end = objects.len();
    while let Some(gap) = reaching(from, gaps) {
        end_between(gap.to, end, objects);
        end = gap.from;
    }
    end_between(from, end, objects);
    end.min(from)
}

/// Takes the latest gap, where it reaches to this number.
fn reaching(from: usize, gaps: &mut Items<Gap>) -> Option<Gap>
    ensures { MatchOption result (gaps.new ≡ gaps.old) (λ gap. (gaps.old ≡ gaps.new ++ gap ∷ []) × (from ≤ gap.to)) }
{
    let count = gaps.len();
    if count == 0 {
        return None;
    }
    match gaps.get(count - 1) {
        Some(gap) if gap.to >= from => gaps.pop(),
        _ => None,
    }
}

/// Ends the objects from one number up to another.
fn end_between(from: usize, to: usize, objects: &mut Items<Extent>)
    ensures before { (n : ℕ) → n ≤ from → ended_from n objects.new ≡ ended_from n objects.old }
    ensures length { length objects.new ≡ length objects.old }
    ensures stay { StayEnded objects.old objects.new }
    ensures ended { (i : ℕ) → from ≤ i → i < to → i < length objects.new → IsTrue (has_ended (slice_get objects.new i)) }
{
    for at in from..to {
        end_object(objects, at);
    }
}

fn end_object(objects: &mut Items<Extent>, at: usize)
    ensures { objects.new ≡ object_ended at objects.old }
{
    let old = objects.get(at).copied();
    match old {
        None => {}
        Some(object) => objects.set(
            at,
            Extent {
                live: false,
                first: object.first,
                count: object.count,
            },
        ),
    }
}
