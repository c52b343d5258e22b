//! The choice of the next variable: the busiest one, with the value that it had last.

ghost use Rattle.std.specs.Prelude.{◌↔◌, ◌<◌, ◌≤◌, ◌^◌, IfSome, IsTrue};
ghost use Rattle.ax_proof.specs.Trail.{IsOpen};

use ax_proof::Lit;
use ax_proof::trail::Truth;
use ax_watch::Watch;
use std::alloc::{AllocError, Global};
use std::collections::BinaryHeap;

/// Where steps and activities are made smaller.
const HIGH: u64 = 1 << 60;

/// By how many binary digits.
const LESS: u32 = 50;

/// What is remembered of a variable: how busy it is, the literal that was true last, and whether an entry of the heap has
/// this activity.
#[derive(Clone, Copy)]
struct Row {
    activity: u64,
    lit: Lit,
    queued: bool,
}

/// A variable with the activity that it had when it was put into the heap.
#[derive(Clone, Copy, PartialEq, Eq, PartialOrd, Ord)]
struct Entry {
    activity: u64,
    lit: Lit,
}

/// The variables by activity. They are only what to try first: whoever takes a literal from here looks whether it is open.
///
/// The heap may have old entries of a variable, which are passed over as they come up.
#[derive(Drop)]
pub struct Order {
    rows: Vec<Row>,
    heap: BinaryHeap<Entry>,
    step: u64,
}

impl Order {
    /// All variables up to `vars`, none of them busy, and each false at first.
    pub fn new(alloc: Global, vars: u64) -> Result<Order, AllocError>
        requires { vars < 2 ^ 63 }
    {
        let mut rows = Vec::new(alloc);
        for before in 0..vars {
            let lit = Lit::new(before + 1, false);
            rows.push(Row {
                activity: 0,
                lit,
                queued: false,
            })?;
        }
        let mut order = Order {
            rows,
            heap: BinaryHeap::new(alloc),
            step: 1 << 10,
        };
        order.refill()?;
        Ok(order)
    }

    /// Puts one entry for each variable into the heap, in place of all that it has.
    fn refill(&mut self) -> Result<(), AllocError> {
        self.heap.clear();
        for row in self.rows.iter_mut() {
            row.queued = true;
            self.heap.push(Entry {
                activity: row.activity,
                lit: row.lit,
            })?;
        }
        Ok(())
    }

    /// Makes a variable busier.
    pub fn bump(&mut self, x: usize) {
        if let Some(row) = self.rows.get_mut(x.saturating_sub(1)) {
            row.activity = row.activity.saturating_add(self.step);
            row.queued = false;
        }
    }

    /// Lets what was busy before count less. Called after each line.
    pub fn decay(&mut self) -> Result<(), AllocError> {
        self.step = self.step.saturating_add(self.step / 19);
        if self.step < HIGH {
            return Ok(());
        }
        self.step >>= LESS;
        for row in self.rows.iter_mut() {
            row.activity >>= LESS;
        }
        self.refill()
    }

    /// Takes back a literal that was true: its variable waits for a decision again.
    pub fn release(&mut self, lit: Lit) -> Result<(), AllocError> {
        if self.heap.len() / 4 > self.rows.len() {
            self.refill()?;
        }
        if let Some(row) = self.rows.get_mut(lit.var() as usize - 1) {
            row.lit = lit;
            if !row.queued {
                row.queued = true;
                self.heap.push(Entry {
                    activity: row.activity,
                    lit,
                })?;
            }
        }
        Ok(())
    }

    /// The literal that was true last of the variable of an entry, unless the entry is old.
    fn take(&mut self, entry: Entry) -> Option<Lit> {
        let row = self.rows.get_mut(entry.lit.var() as usize - 1)?;
        if row.activity != entry.activity {
            return None;
        }
        row.queued = false;
        Some(row.lit)
    }

    /// An open literal of the busiest variable that waits.
    pub fn next(&mut self, watch: &Watch) -> Option<Lit>
        ensures { IfSome result (λ lit. IsOpen watch.now.trail lit × (lit.var ≤ watch.now.vars)) }
    {
        for _ in 0..self.heap.len() {
            let entry = self.heap.pop()?;
            match self.take(entry) {
                Some(lit) => {
                    if is_free(watch, lit) {
                        return Some(lit);
                    }
                }
                None => {}
            }
        }
        None
    }
}

/// Whether the literal is open.
fn is_free(watch: &Watch, lit: Lit) -> bool
    ensures { IsTrue result ↔ (IsOpen watch.now.trail lit × (lit.var ≤ watch.now.vars)) }
{
    if lit.var() > watch.vars() {
        return false;
    }
    match watch.truth(lit) {
        Truth::Open => true,
        Truth::True => false,
        Truth::False => false,
    }
}
