//! A watch that begins anew over fewer clauses.

ghost use Rattle.std.specs.Prelude.{◌≡◌, ◌++◌, ◌∷◌, ◌<◌, [], All, IfOk, OnOk, OnErr, length};
ghost use Rattle.ax_proof.specs.Literal.{IsOver};
ghost use Rattle.ax_proof.specs.Clause.{IsClause};
ghost use Rattle.ax_sat_policy.specs.Core.{HasMarkedPart, IsCore, Takes};

use crate::choice::core_marks;
use ax_proof::{Clause, Lit};
use ax_watch::Watch;
use std::alloc::{AllocError, Global};

/// Puts a clause behind those that are watched.
pub fn put(watch: &mut Watch, clause: &Clause) -> Result<(), AllocError>
    requires { IsOver watch.old.vars clause.now }
    ensures clauses { OnOk result (watch.new.clauses ≡ watch.old.clauses ++ clause.now ∷ []) }
    ensures vars { watch.new.vars ≡ watch.old.vars }
    ensures trail { watch.new.trail ≡ watch.old.trail }
{
    watch.reserve(1, clause.len())?;
    let _place = watch.add(clause);
    Ok(())
}

/// The clause of literals by rising variable.
fn copied(alloc: Global, lits: &[Lit]) -> Result<Clause, AllocError>
    requires { IsClause lits.now }
    ensures { IfOk result (λ clause. clause ≡ lits.now) }
{
    match Clause::from_lits(alloc, lits)? {
        Some(clause) => Ok(clause),
        None => unreachable!(),
    }
}

/// Puts the clause of literals by rising variable behind those that are watched.
fn put_copy(alloc: Global, watch: &mut Watch, lits: &[Lit]) -> Result<(), AllocError>
    requires rising { IsClause lits.now }
    requires over { IsOver watch.old.vars lits.now }
    ensures clauses { OnOk result (watch.new.clauses ≡ watch.old.clauses ++ lits.now ∷ []) }
    ensures vars { watch.new.vars ≡ watch.old.vars }
    ensures trail { watch.new.trail ≡ watch.old.trail }
{
    let clause = copied(alloc, lits)?;
    put(watch, &clause)?;
    Ok(())
}

/// Watches the clause at this place of a watch too, where it is marked.
fn take(
    alloc: Global,
    made: &mut Watch,
    watch: &Watch,
    kept: &[bool],
    place: usize,
) -> Result<(), AllocError>
    requires vars { made.old.vars ≡ watch.now.vars }
    requires size { length kept.now ≡ length watch.now.clauses }
    requires place { place < length watch.now.clauses }
    ensures takes { OnOk result (Takes watch.now.clauses kept.now place made.old.clauses made.new.clauses) }
    ensures vars { made.new.vars ≡ made.old.vars }
    ensures trail { made.new.trail ≡ made.old.trail }
{
    if !kept[place] {
        return Ok(());
    }
    put_copy(alloc, made, watch.clause(place))?;
    Ok(())
}

/// Watches the marked clauses of a watch too, in their order.
fn fill(alloc: Global, made: &mut Watch, watch: &Watch, kept: &[bool]) -> Result<(), AllocError>
    requires none { made.old.clauses ≡ [] }
    requires vars { made.old.vars ≡ watch.now.vars }
    requires size { length kept.now ≡ length watch.now.clauses }
    requires core { All (HasMarkedPart watch.now.clauses kept.now) watch.now.clauses }
    ensures core { OnOk result (IsCore made.new.clauses watch.now.clauses) }
    ensures vars { made.new.vars ≡ made.old.vars }
    ensures trail { made.new.trail ≡ made.old.trail }
{
    for place in 0..watch.len() {
        take(alloc, made, watch, kept, place)?;
    }
    Ok(())
}

/// A watch of a core of what is watched, with nothing true.
fn renewed(alloc: Global, watch: &Watch) -> Result<Watch, AllocError>
    ensures core { IfOk result (λ made. IsCore made.clauses watch.now.clauses) }
    ensures vars { IfOk result (λ made. made.vars ≡ watch.now.vars) }
    ensures trail { IfOk result (λ made. made.trail ≡ []) }
{
    let kept = core_marks(alloc, watch)?;
    let mut made = Watch::new(alloc, watch.vars())?;
    fill(alloc, &mut made, watch, kept.as_slice())?;
    Ok(made)
}

/// Watches only a core of what is watched, with nothing true.
pub fn renew(alloc: Global, watch: &mut Watch) -> Result<(), AllocError>
    ensures core { OnOk result (IsCore watch.new.clauses watch.old.clauses) }
    ensures vars { watch.new.vars ≡ watch.old.vars }
    ensures trail { OnOk result (watch.new.trail ≡ []) }
    ensures refused { OnErr result (watch.new ≡ watch.old) }
{
    *watch = renewed(alloc, watch)?;
    Ok(())
}
