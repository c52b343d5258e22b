//! Marks of variables, and where their literals stand on the trail.

ghost use Rattle.std.specs.Prelude.{◌≡◌, ◌≢◌, ◌↔◌, ◌+◌, ◌<◌, ◌^◌, ℕ, All, IfOk, OnOk, IsTrue, length};
ghost use Rattle.std.specs.List.{Contains};
ghost use Rattle.ax_proof.specs.Marks.{IsMarked};
ghost use Rattle.ax_sat.specs.Marks.{MarksMore};

use crate::counts::Counts;
use std::alloc::{AllocError, Global};
use std::marker::Model;

/// Marks of the variables of a line to be learnt, and a list of those that were marked, by which the marks are taken away
/// again. For each variable the place of its literal on the trail is noted, which callers check before they use it.
#[derive(Drop)]
pub struct Marks {
    on: Vec<bool>,
    touched: Vec<usize>,
    places: Vec<usize>,
    start: usize,
    late: usize,
    counts: Counts,
}

impl Model for Marks {
    ghost use Rattle.std.specs.Prelude.{ℕ, ◌<◌, All, length};
    ghost use Rattle.std.specs.List.{Contains};
    ghost use Rattle.ax_proof.specs.Marks.{IsMarked};
    ghost use Rattle.ax_sat.specs.Marks.{MarksState};

    ghost Value = { MarksState };

    ghost view = { λ m. record { on = m.on.items; touched = m.touched.items } };

    ghost invariant = { λ m. record {
      within : All (λ x. x < length m.on.items) m.touched.items;
      listed : (x : ℕ) → IsMarked m.on.items x → Contains m.touched.items x;
    } };
}

/// Notes a place for a variable that has room. Whoever reads it looks whether it is right, so nothing rests on it.
fn set_place(places: &mut [usize], x: usize, place: usize) {
    if let Some(slot) = places.get_mut(x) {
        *slot = place;
    }
}

impl Marks {
    /// No marks, for variables up to `vars`.
    pub fn new(alloc: Global, vars: u64) -> Result<Marks, AllocError>
        requires { vars < 2 ^ 63 }
        ensures { IfOk result (λ marks. length marks.on ≡ vars + 1) }
    {
        let size = vars as usize + 1;
        Ok(Marks {
            on: vec![in alloc; false; size]?,
            touched: Vec::new(alloc),
            places: vec![in alloc; 0; size]?,
            start: 0,
            late: 0,
            counts: Counts::new(),
        })
    }

    /// Takes all marks away, for the next line. From `start` on, literals of the trail count as late.
    pub fn begin(&mut self, start: usize)
        ensures { length self.new.on ≡ length self.old.on }
    {
        self.start = start;
        self.late = 0;
        self.counts.conflicts = self.counts.conflicts.saturating_add(1);
        while let Some(x) = self.touched.pop() {
            self.on[x] = false;
        }
    }

    /// Whether the variable is marked.
    pub fn has(&self, x: usize) -> bool
        requires { x < length self.now.on }
        ensures { IsTrue result ↔ IsMarked self.now.on x }
    {
        self.on[x]
    }

    /// Marks the variable.
    pub fn set(&mut self, x: usize) -> Result<(), AllocError>
        requires { x < length self.old.on }
        ensures more { MarksMore self.old.on self.new.on }
        ensures marked { OnOk result (IsMarked self.new.on x) }
    {
        if self.on[x] {
            return Ok(());
        }
        self.touched.push(x)?;
        self.on[x] = true;
        if self.place(x) >= self.start {
            self.late = self.late.saturating_add(1);
        }
        Ok(())
    }

    /// Takes the variable's mark away.
    pub fn unset(&mut self, x: usize)
        requires { x < length self.old.on }
        ensures size { length self.new.on ≡ length self.old.on }
        ensures others { (y : ℕ) → y ≢ x → IsMarked self.old.on y → IsMarked self.new.on y }
    {
        self.on[x] = false;
        if self.place(x) >= self.start {
            self.late = self.late.saturating_sub(1);
        }
    }

    /// The variables that were marked, with or without a mark now.
    pub fn touched(&self) -> &[usize]
        ensures value { result.now ≡ self.now.touched }
        ensures within { All (λ x. x < length self.now.on) self.now.touched }
        ensures listed { (x : ℕ) → IsMarked self.now.on x → Contains self.now.touched x }
    {
        self.touched.as_slice()
    }

    /// Notes where the literal of a variable stands on the trail that a clause made true.
    pub fn put(&mut self, x: usize, place: usize)
        ensures { self.new ≡ self.old }
    {
        self.counts.propagations = self.counts.propagations.saturating_add(1);
        set_place(self.places.as_mut_slice(), x, place);
    }

    /// Notes where the literal of a variable stands on the trail that was decided.
    pub fn put_decided(&mut self, x: usize, place: usize)
        ensures { self.new ≡ self.old }
    {
        self.counts.decisions = self.counts.decisions.saturating_add(1);
        set_place(self.places.as_mut_slice(), x, place);
    }

    /// How many lines were begun, and how many literals were noted, decided ones and others.
    pub fn counts(&self) -> Counts {
        self.counts
    }

    /// The place that was noted last for a variable, or 0. Whether it is still right is for the caller to see.
    pub fn place(&self, x: usize) -> usize {
        match self.places.get(x) {
            Some(place) => *place,
            None => 0,
        }
    }

    /// How many marked variables have late places. It only says where to stop, so nothing rests on it.
    pub fn late(&self) -> usize {
        self.late
    }
}
