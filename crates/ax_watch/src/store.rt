//! Clauses in one flat list.

ghost use Rattle.std.specs.Prelude.{◌≡◌, ◌++◌, ◌∷◌, ◌+◌, ◌-◌, ◌<◌, ◌≤◌, ◌⊎◌, [], All, IsTrue, ◌↔◌, OnOk, OnErr, length, slice_index_or};
ghost use Rattle.ax_proof.specs.Clause.{IsClause};
ghost use Rattle.ax_watch.specs.Store.{StoreState, clauses_at};

use ax_proof::clause::Clause;
use ax_proof::literal::Lit;
use std::alloc::{AllocError, Global};
use std::marker::Model;

/// Where a clause's literals stand in the flat list.
#[derive(Clone, Copy)]
pub struct Span {
    start: usize,
    len: usize,
}

/// Clauses by place, with room that was made before for more of them.
#[derive(Drop)]
pub struct Store {
    literals: Vec<Lit>,
    spans: Vec<Span>,
    room_clauses: usize,
    room_literals: usize,
}

impl Model for Store {
    ghost use Rattle.std.specs.Prelude.{◌+◌, ◌≤◌, All, length, vec_len};
    ghost use Rattle.std.specs.Vec.{vec_capacity};
    ghost use Rattle.ax_proof.specs.Clause.{IsClause};
    ghost use Rattle.ax_watch.specs.Store.{StoreState, clauses_at};

    ghost Value = { StoreState };

    ghost view = { λ s. record {
      clauses = clauses_at s.literals.items s.spans.items;
      room_clauses = s.room_clauses;
      room_literals = s.room_literals;
    } };

    ghost invariant = { λ s. record {
      inside : All (λ p. p.start + p.len ≤ length s.literals.items) s.spans.items;
      rising : All IsClause (clauses_at s.literals.items s.spans.items);
      spans_fit : vec_len s.spans + s.room_clauses ≤ vec_capacity s.spans;
      literals_fit : vec_len s.literals + s.room_literals ≤ vec_capacity s.literals;
    } };
}

/// The clause at a place of the flat list.
fn literals_at<'a>(literals: &'a [Lit], spans: &[Span], place: usize) -> &'a [Lit]
    requires inside { All (λ p. p.start + p.len ≤ length literals.now) spans.now }
    requires within { place < length spans.now }
    ensures { result.now ≡ slice_index_or (clauses_at literals.now spans.now) place [] }
{
    let span = spans[place];
    &literals[span.start..span.start + span.len]
}

impl Store {
    /// No clauses, and no room.
    pub fn new(alloc: Global) -> Store
        ensures { result ≡ record { clauses = []; room_clauses = 0; room_literals = 0 } }
    {
        Store {
            literals: Vec::new(alloc),
            spans: Vec::new(alloc),
            room_clauses: 0,
            room_literals: 0,
        }
    }

    /// Makes room for at least so many clauses and literals.
    pub fn reserve(&mut self, clauses: usize, literals: usize) -> Result<(), AllocError>
        ensures kept { self.new.clauses ≡ self.old.clauses }
        ensures clauses { OnOk result (clauses ≤ self.new.room_clauses) }
        ensures literals { OnOk result (literals ≤ self.new.room_literals) }
        ensures clauses_stay { self.old.room_clauses ≤ self.new.room_clauses }
        ensures literals_stay { self.old.room_literals ≤ self.new.room_literals }
        ensures no_more { (self.new.room_clauses ≡ self.old.room_clauses) ⊎ (self.new.room_clauses ≡ clauses) }
        ensures err { OnErr result (self.new ≡ self.old) }
    {
        self.spans.reserve(clauses)?;
        self.literals.reserve(literals)?;
        if self.room_clauses < clauses {
            self.room_clauses = clauses;
        }
        if self.room_literals < literals {
            self.room_literals = literals;
        }
        Ok(())
    }

    /// Puts a clause behind the others, in the room that was made for it, and gives its place.
    pub fn push(&mut self, clause: &Clause) -> usize
        requires room_clauses { 0 < self.old.room_clauses }
        requires room_literals { length clause.now ≤ self.old.room_literals }
        ensures place { result ≡ length self.old.clauses }
        ensures clauses { self.new.clauses ≡ self.old.clauses ++ clause.now ∷ [] }
        ensures room_clauses { self.new.room_clauses ≡ self.old.room_clauses - 1 }
        ensures room_literals { self.new.room_literals ≡ self.old.room_literals - length clause.now }
    {
        let place = self.spans.len();
        let start = self.literals.len();
        let len = clause.len();
        for lit in clause.lits() {
            self.literals.push_reserved(*lit);
        }
        self.spans.push_reserved(Span { start, len });
        self.room_clauses -= 1;
        self.room_literals -= len;
        place
    }

    /// Each clause's variables rise. Does nothing.
    pub fn known(&self)
        ensures { All IsClause self.now.clauses }
    {
        let _ = &self.spans;
    }

    /// The number of clauses.
    pub fn len(&self) -> usize
        ensures { result ≡ length self.now.clauses }
    {
        self.spans.len()
    }

    /// Whether there are no clauses.
    pub fn is_empty(&self) -> bool
        ensures { IsTrue result ↔ (self.now.clauses ≡ []) }
    {
        self.spans.is_empty()
    }

    /// The literals of the clause at a place, by rising variable.
    pub fn get(&self, place: usize) -> &[Lit]
        requires { place < length self.now.clauses }
        ensures value { result.now ≡ slice_index_or self.now.clauses place [] }
        ensures rising { IsClause result.now }
    {
        literals_at(self.literals.as_slice(), self.spans.as_slice(), place)
    }
}
