//! Which of the watched clauses are enough.

ghost use Rattle.std.specs.Prelude.{◌≡◌, ◌<◌, ℕ, All, IfOk, OnOk, length};
ghost use Rattle.ax_proof.specs.Marks.{IsMarked};
ghost use Rattle.ax_watch.specs.Watch.{clause_of};
ghost use Rattle.ax_sat_policy.specs.Core.{HasMarkedPart};

use crate::parts::Shelf;
use ax_watch::Watch;
use std::alloc::{AllocError, Global};

/// Marks the clause at this place, unless a part of it is marked.
fn visit(
    watch: &Watch,
    shelf: &mut Shelf,
    kept: &mut Vec<bool>,
    place: usize,
) -> Result<(), AllocError>
    requires place { place < length watch.now.clauses }
    requires size { length kept.old.items ≡ length watch.now.clauses }
    ensures size { length kept.new.items ≡ length kept.old.items }
    ensures more { (k : ℕ) → IsMarked kept.old.items k → IsMarked kept.new.items k }
    ensures part { OnOk result (HasMarkedPart watch.now.clauses kept.new.items (clause_of watch.now.clauses place)) }
{
    let lits = watch.clause(place);
    if shelf.has_part(watch, kept.as_slice(), lits) {
        return Ok(());
    }
    shelf.keep(lits, place)?;
    kept[place] = true;
    Ok(())
}

/// Marks of the clauses, from the last one to the first, those of which no part is marked. Later lines are mostly shorter.
fn choose(alloc: Global, watch: &Watch, kept: &mut Vec<bool>) -> Result<(), AllocError>
    requires { length kept.old.items ≡ length watch.now.clauses }
    ensures size { length kept.new.items ≡ length kept.old.items }
    ensures core { OnOk result (All (HasMarkedPart watch.now.clauses kept.new.items) watch.now.clauses) }
{
    let mut shelf = Shelf::new(alloc, watch.vars())?;
    for at in (0..watch.len()).rev() {
        visit(watch, &mut shelf, kept, at)?;
    }
    Ok(())
}

/// Marks of watched clauses, so that each clause has a marked part.
pub fn core_marks(alloc: Global, watch: &Watch) -> Result<Vec<bool>, AllocError>
    ensures size { IfOk result (λ kept. length kept.items ≡ length watch.now.clauses) }
    ensures core { IfOk result (λ kept. All (HasMarkedPart watch.now.clauses kept.items) watch.now.clauses) }
{
    let mut kept = vec![in alloc; false; watch.len()]?;
    choose(alloc, watch, &mut kept)?;
    Ok(kept)
}
