//! Whether a part of a clause is marked.

ghost use Rattle.std.specs.Prelude.{◌≡◌, Contains, IsTrue, length};
ghost use Rattle.ax_sat_policy.specs.Core.{IsPart, HasMarkedPart};

use ax_proof::Lit;
use ax_watch::Watch;
use std::alloc::{AllocError, Global};

/// A marked clause in a list.
#[derive(Clone, Copy)]
struct Entry {
    place: usize,
    sign: u64,
    /// How many entries the list has from this one on.
    count: usize,
    /// One more than the number of the entry behind it, or 0 where it is the last.
    next: usize,
}

/// Where literals stand, in tables by their codes. Whoever takes a place from here looks what stands there, so nothing rests on
/// the tables.
#[derive(Drop)]
pub struct Shelf {
    /// Where each literal stood in the last clause that has it.
    places: Vec<usize>,
    /// Of each literal's list one more than the number of its first entry, or 0 where it has none.
    first: Vec<usize>,
    /// Each marked clause stands in the list of one of its literals.
    entries: Vec<Entry>,
}

/// The entry to which a link leads.
fn entry_at(entries: &[Entry], link: usize) -> Option<Entry> {
    entries.get(link.wrapping_sub(1)).copied()
}

/// A binary digit for each literal. Of a part they are among those of the whole.
fn sign_of(lits: &[Lit]) -> u64 {
    let mut sign = 0;
    for lit in lits {
        sign |= 1 << (lit.code() % 64);
    }
    sign
}

/// Notes where the literals of a clause stand in it.
fn note(places: &mut [usize], lits: &[Lit]) {
    for at in 0..lits.len() {
        if let Some(slot) = places.get_mut(lits[at].code() as usize) {
            *slot = at;
        }
    }
}

/// Whether the literal is one of these, at the place that was noted for it.
fn has(places: &[usize], lits: &[Lit], lit: Lit) -> bool
    ensures { IsTrue result → Contains lits.now lit }
{
    match places.get(lit.code() as usize) {
        Some(at) => *at < lits.len() && lits[*at] == lit,
        None => false,
    }
}

/// Whether each literal of the part is one of these, as far as their places were noted.
fn is_part(places: &[usize], lits: &[Lit], part: &[Lit]) -> bool
    ensures { IsTrue result → IsPart part.now lits.now }
{
    for lit in part {
        if !has(places, lits, *lit) {
            return false;
        }
    }
    true
}

/// Whether the clause at this place is marked, and a part of the clause of these literals.
fn is_marked_part(
    places: &[usize],
    watch: &Watch,
    kept: &[bool],
    lits: &[Lit],
    place: usize,
) -> bool
    requires { length kept.now ≡ length watch.now.clauses }
    ensures { IsTrue result → HasMarkedPart watch.now.clauses kept.now lits.now }
{
    if place >= watch.len() {
        return false;
    }
    if !kept[place] {
        return false;
    }
    is_part(places, lits, watch.clause(place))
}

/// Whether a clause of the list to which a link leads is marked, and a part of the clause of these literals, which has this
/// sign.
fn has_part_among(
    places: &[usize],
    watch: &Watch,
    kept: &[bool],
    lits: &[Lit],
    entries: &[Entry],
    from: usize,
    sign: u64,
) -> bool
    requires { length kept.now ≡ length watch.now.clauses }
    ensures { IsTrue result → HasMarkedPart watch.now.clauses kept.now lits.now }
{
    let mut link = from;
    for _ in 0..entries.len() {
        match entry_at(entries, link) {
            None => return false,
            Some(entry) => {
                if entry.sign & sign == entry.sign
                    && is_marked_part(places, watch, kept, lits, entry.place)
                {
                    return true;
                }
                link = entry.next;
            }
        }
    }
    false
}

impl Shelf {
    /// No clauses, for variables up to `vars`.
    pub fn new(alloc: Global, vars: u64) -> Result<Shelf, AllocError> {
        let pairs = (vars as usize).checked_add(1).ok_or(AllocError)?;
        let size = pairs.checked_mul(2).ok_or(AllocError)?;
        Ok(Shelf {
            places: vec![in alloc; 0; size]?,
            first: vec![in alloc; 0; size]?,
            entries: Vec::new(alloc),
        })
    }

    /// The link to the list of the literal of this code.
    fn link(&self, code: usize) -> usize {
        self.first.get(code).copied().unwrap_or(0)
    }

    /// How many entries the list of the literal of this code has.
    fn count(&self, code: usize) -> usize {
        match entry_at(self.entries.as_slice(), self.link(code)) {
            Some(entry) => entry.count,
            None => 0,
        }
    }

    /// Whether a marked clause is a part of the clause of these literals: one that stands in the list of one of them.
    pub fn has_part(&mut self, watch: &Watch, kept: &[bool], lits: &[Lit]) -> bool
        requires { length kept.now ≡ length watch.now.clauses }
        ensures { IsTrue result → HasMarkedPart watch.now.clauses kept.now lits.now }
    {
        note(self.places.as_mut_slice(), lits);
        let sign = sign_of(lits);
        for lit in lits {
            if has_part_among(
                self.places.as_slice(),
                watch,
                kept,
                lits,
                self.entries.as_slice(),
                self.link(lit.code() as usize),
                sign,
            ) {
                return true;
            }
        }
        false
    }

    /// The code of a literal whose list is no longer than those of the others.
    fn shortest(&self, lits: &[Lit]) -> usize {
        let mut shortest = 0;
        let mut least = usize::MAX;
        for lit in lits {
            let code = lit.code() as usize;
            let count = self.count(code);
            if count < least {
                least = count;
                shortest = code;
            }
        }
        shortest
    }

    /// Puts the place of a clause of these literals into a list.
    pub fn keep(&mut self, lits: &[Lit], place: usize) -> Result<(), AllocError> {
        let code = self.shortest(lits);
        let entry = Entry {
            place,
            sign: sign_of(lits),
            count: self.count(code).saturating_add(1),
            next: self.link(code),
        };
        self.entries.push(entry)?;
        let link = self.entries.len();
        if let Some(slot) = self.first.get_mut(code) {
            *slot = link;
        }
        Ok(())
    }
}
