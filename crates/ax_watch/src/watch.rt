//! Clauses, and literals made true.

ghost use Rattle.std.specs.Prelude.{◌≡◌, ◌↔◌, ◌++◌, ◌∷◌, ◌+◌, ◌-◌, ◌*◌, ◌<◌, ◌≤◌, [], All, IsTrue, IfOk, OnOk, OnErr, IsSome, IsNone, IfSome, IfNone, length, take, slice_index_or};
ghost use Rattle.ax_proof.specs.Literal.{IsOver};
ghost use Rattle.ax_proof.specs.Clause.{IsClause};
ghost use Rattle.ax_proof.specs.Propagation.{Conflicts};
ghost use Rattle.ax_proof.specs.Trail.{IsOpen, Says};
ghost use Rattle.ax_proof.specs.Runs.{GoesOn};
ghost use Rattle.ax_watch.specs.Watch.{WatchState, IsSound, Reserves, Forces, HasOnlyForced, HasAllForced, WatchSays, nothing_over, trail_of, clause_of, with_clause, assuming, cut};

use crate::lists::Lists;
use crate::pairs::note;
use crate::reach::{Marks, lower, start};
use crate::scan::scan;
use crate::store::Store;
use crate::watched;
use ax_proof::clause::Clause;
use ax_proof::literal::Lit;
use ax_proof::trail::{Trail, Truth};
use std::alloc::{AllocError, Global};
use std::marker::Model;

/// Clauses over variables from 1, and the literals made true, in order. It takes memory in `new`, `widen` and `reserve`
/// alone.
///
/// With each true literal stands the place of the clause that forced it, or none where it was assumed.
///
/// Two literals of each clause are watched, and `propagate` looks at a clause only when one of them became false. It goes
/// on from where it came to before. Where the trail was cut, that is where it had come to when the trail had so many
/// literals, or before that. Where a clause was added, it is at most where the second of its watched literals became false:
/// literals that are open are watched if there are two, and else those that became false last.
#[derive(Drop)]
pub struct Watch {
    trail: Trail,
    store: Store,
    /// The cells of each literal, by its code. The cells of the clause at a place are twice the place, and one more.
    lists: Lists,
    /// The literal that each cell watches.
    watched: Vec<Lit>,
    /// The places of the clauses of one literal or none, which are not watched.
    short: Vec<usize>,
    /// How many literals the trail had when propagation found no false clause. A cut to one of them leaves nothing to be
    /// propagated but what clauses that were added since force.
    marks: Marks,
    /// As many literals of the trail as propagation can go on from, where that is known to be more than the last mark.
    head: Option<usize>,
    /// Where the literal of each variable was put on the trail last.
    places: Vec<usize>,
}

impl Model for Watch {
    ghost use Rattle.std.specs.Prelude.{◌≡◌, ◌+◌, ◌-◌, ◌*◌, ◌≤◌, ℕ, All, Contains, IfSome, length, vec_len};
    ghost use Rattle.std.specs.Vec.{vec_capacity};
    ghost use Rattle.ax_proof.specs.Literal.{IsOver};
    ghost use Rattle.ax_watch.specs.Watch.{WatchState, AreReasons};
    ghost use Rattle.ax_watch.specs.Watched.{IsWatching, AreShort, IsMark, IsHead};

    ghost Value = { WatchState };

    ghost view = { λ w. record {
      vars = w.trail.size - 1;
      clauses = w.store.clauses;
      trail = w.trail.lits;
      reasons = w.trail.reasons;
      room_clauses = w.store.room_clauses;
      room_literals = w.store.room_literals;
    } };

    ghost invariant = { λ w. record {
      size : 1 ≤ w.trail.size;
      over : All (IsOver (w.trail.size - 1)) w.store.clauses;
      literals : IsOver (w.trail.size - 1) w.trail.lits;
      paired : length w.trail.reasons ≡ length w.trail.lits;
      reasons : AreReasons w.store.clauses w.trail.lits w.trail.reasons;
      watching : IsWatching w.store.clauses w.trail.size w.watched.items w.lists;
      short : AreShort w.store.clauses w.short.items;
      marks : (len : ℕ) → Contains w.marks len → IsMark w.store.clauses w.watched.items w.trail.lits len;
      head : IfSome w.head (λ len. IsHead w.store.clauses w.watched.items w.trail.lits len);
      lists_fit : 2 * w.store.room_clauses ≤ w.lists.room;
      watched_fit : vec_len w.watched + 2 * w.store.room_clauses ≤ vec_capacity w.watched;
      short_fit : vec_len w.short + w.store.room_clauses ≤ vec_capacity w.short;
    } };
}

/// The size of a table by variable.
fn size_for(vars: u64) -> Result<usize, AllocError>
    ensures { IfOk result (λ size. size ≡ vars + 1) }
{
    (vars as usize).checked_add(1).ok_or(AllocError)
}

impl Watch {
    /// No clauses over the variables from 1 to `vars`, and no literal made true.
    pub fn new(alloc: Global, vars: u64) -> Result<Watch, AllocError>
        ensures { IfOk result (λ made. made ≡ nothing_over vars) }
    {
        let size = size_for(vars)?;
        let mut lists = Lists::new(alloc);
        let mut marks = Marks::new(alloc);
        let mut places = Vec::new(alloc);
        watched::make_tables(&mut lists, &mut places, &mut marks, size)?;
        Ok(Watch {
            trail: Trail::new(alloc, size)?,
            store: Store::new(alloc),
            lists,
            watched: Vec::new(alloc),
            short: Vec::new(alloc),
            marks,
            head: None,
            places,
        })
    }

    /// Makes `vars` the number of variables.
    pub fn widen(&mut self, vars: u64) -> Result<(), AllocError>
        requires { self.old.vars ≤ vars }
        ensures done { OnOk result (self.new ≡ record self.old { vars = vars }) }
        ensures err { OnErr result (self.new ≡ self.old) }
    {
        let size = size_for(vars)?;
        watched::make_tables(&mut self.lists, &mut self.places, &mut self.marks, size)?;
        self.trail.widen(size)?;
        Ok(())
    }

    /// Makes room for at least so many clauses and literals.
    pub fn reserve(&mut self, clauses: usize, lits: usize) -> Result<(), AllocError>
        ensures done { OnOk result (Reserves clauses lits self.old self.new) }
        ensures err { OnErr result (self.new ≡ self.old) }
    {
        watched::make_room(&mut self.lists, &mut self.watched, &mut self.short, clauses)?;
        self.store.reserve(clauses, lits)
    }

    /// Puts a clause behind the others, in the room that was made for it, and gives its place, from 0.
    pub fn add(&mut self, clause: &Clause) -> usize
        requires over { IsOver self.old.vars clause.now }
        requires room_clauses { 0 < self.old.room_clauses }
        requires room_literals { length clause.now ≤ self.old.room_literals }
        ensures place { result ≡ length self.old.clauses }
        ensures added { self.new ≡ with_clause self.old clause.now }
    {
        let until = watched::enter(
            &mut self.lists,
            &mut self.watched,
            &mut self.short,
            &self.store,
            clause.lits(),
            &self.trail,
            self.places.as_slice(),
        );
        self.head = lower(&mut self.marks, self.head, until);
        self.store.push(clause)
    }

    /// Makes an open literal true, forced by no clause.
    pub fn assume(&mut self, lit: Lit)
        requires open { IsOpen self.old.trail lit }
        requires within { lit.var ≤ self.old.vars }
        ensures { self.new ≡ assuming self.old lit }
    {
        let _var = lit.var();
        let len = self.trail.lits().len();
        self.trail.push(lit, 0);
        note(&mut self.places, self.trail.lits(), len);
    }

    /// Unit propagation. It makes true what the clauses force until one of them is false, whose place it gives, or until
    /// nothing more follows. Which false clause it gives, and in which order literals follow, is left open.
    pub fn propagate(&mut self) -> Option<usize>
        ensures kept { self.new ≡ record self.old { trail = self.new.trail; reasons = self.new.reasons } }
        ensures goes_on { GoesOn self.old.clauses (trail_of self.old) (trail_of self.new) }
        ensures only_forced { HasOnlyForced self.old.clauses self.old.trail self.new.trail }
        ensures all_forced { IfNone result (HasAllForced self.old.clauses self.old.trail self.new.trail) }
        ensures conflict { IsSome result ↔ Conflicts self.old.clauses self.old.trail }
        ensures says { WatchSays self.old.clauses self.new.trail result }
    {
        let len = self.trail.lits().len();
        let from = start(&self.marks, self.head);
        self.head = None;
        let found = watched::resume(
            &mut self.lists,
            self.watched.as_mut_slice(),
            &mut self.trail,
            &self.store,
            self.short.as_slice(),
            from,
        );
        note(&mut self.places, self.trail.lits(), len);
        match found {
            Some(place) => Some(place),
            None => {
                self.marks.push(self.trail.lits().len());
                None
            }
        }
    }

    /// Unit propagation by going over all clauses in turn, again and again: the plain program beside `propagate`, to
    /// compare with. The next `propagate` begins with the first literal of the trail.
    pub fn propagate_by_scan(&mut self) -> Option<usize>
        ensures kept { self.new ≡ record self.old { trail = self.new.trail; reasons = self.new.reasons } }
        ensures goes_on { GoesOn self.old.clauses (trail_of self.old) (trail_of self.new) }
        ensures only_forced { HasOnlyForced self.old.clauses self.old.trail self.new.trail }
        ensures all_forced { IfNone result (HasAllForced self.old.clauses self.old.trail self.new.trail) }
        ensures conflict { IsSome result ↔ Conflicts self.old.clauses self.old.trail }
        ensures says { WatchSays self.old.clauses self.new.trail result }
    {
        self.marks.clear();
        self.head = None;
        scan(&mut self.trail, &self.store)
    }

    /// The literals made true, in order.
    pub fn trail(&self) -> &[Lit]
        ensures value { result.now ≡ self.now.trail }
        ensures sound { IsSound self.now }
    {
        self.store.known();
        self.trail.lits()
    }

    /// Cuts the trail to its first `len` literals.
    pub fn back(&mut self, len: usize)
        requires { len ≤ length self.old.trail }
        ensures { self.new ≡ cut self.old len }
    {
        self.trail.back(len);
        self.marks.cut(len);
        self.head = None;
    }

    /// The number of variables.
    pub fn vars(&self) -> u64
        ensures { result ≡ self.now.vars }
    {
        self.trail.size() as u64 - 1
    }

    /// The number of clauses.
    pub fn len(&self) -> usize
        ensures { result ≡ length self.now.clauses }
    {
        self.store.len()
    }

    /// Whether there are no clauses.
    pub fn is_empty(&self) -> bool
        ensures { IsTrue result ↔ (self.now.clauses ≡ []) }
    {
        self.store.is_empty()
    }

    /// Whether the clause's variables are from 1 to the number of variables.
    pub fn covers(&self, clause: &Clause) -> bool
        ensures { IsTrue result ↔ IsOver self.now.vars clause.now }
    {
        let vars = self.vars();
        for lit in clause.lits() {
            if lit.var() > vars {
                return false;
            }
        }
        true
    }

    /// The literals of the clause at a place, by rising variable.
    pub fn clause(&self, place: usize) -> &[Lit]
        requires { place < length self.now.clauses }
        ensures value { result.now ≡ clause_of self.now.clauses place }
        ensures rising { IsClause result.now }
        ensures over { IsOver self.now.vars result.now }
    {
        self.store.get(place)
    }

    /// What is known of a literal.
    pub fn truth(&self, lit: Lit) -> Truth
        ensures { Says self.now.trail lit result }
    {
        self.trail.truth(lit)
    }

    /// The place of the clause that forced the literal at this place of the trail, or none where it was assumed.
    pub fn reason(&self, at: usize) -> Option<usize>
        requires { at < length self.now.trail }
        ensures none { IsNone result ↔ (slice_index_or self.now.reasons at 0 ≡ 0) }
        ensures some { IfSome result (λ place. slice_index_or self.now.reasons at 0 ≡ place + 1) }
        ensures forces { IfSome result (λ place. Forces self.now.clauses self.now.trail at place) }
    {
        let number = self.trail.reasons()[at];
        if number == 0 {
            return None;
        }
        Some(number - 1)
    }
}
