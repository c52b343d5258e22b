//! Literals made true, in order.

ghost use Rattle.std.specs.Prelude.{take, ◌-◌, ◌≡◌, ◌++◌, ◌∷◌, ◌+◌, ◌<◌, ◌≤◌, [], IfOk, OnOk, OnErr, length, slice_index_or};
ghost use Rattle.ax_proof.specs.Literal.{IsBelow};
ghost use Rattle.ax_proof.specs.Clause.{IsClause};
ghost use Rattle.ax_proof.specs.Trail.{IsOpen, Says, Judges, IsConsistent, IsTrail};
ghost use Rattle.ax_proof.specs.Truths.{with_sign};

use crate::literal::Lit;
use std::alloc::{AllocError, Global};
use std::marker::Model;

/// What is known of a literal.
#[derive(Clone, Copy, PartialEq, Eq, Debug)]
pub enum Truth {
    True,
    False,
    Open,
}

impl Truth {
    /// What is known of the literal of this sign, where this is known of its variable.
    fn signed(self, positive: bool) -> Truth
        ensures { result ≡ with_sign positive self }
    {
        if positive {
            return self;
        }
        match self {
            Truth::True => Truth::False,
            Truth::False => Truth::True,
            Truth::Open => Truth::Open,
        }
    }
}

/// What is known of a clause.
#[derive(Clone, Copy, Debug)]
pub enum Judgement {
    /// Some literal is true.
    Satisfied,
    /// All literals are false.
    Falsified,
    /// All literals but this open one are false.
    Unit(Lit),
    /// Two literals are open.
    Undecided,
}

/// Literals in the order in which they became true, none with its negation, and of each the number of the clause that
/// forced it, or 0 where none did. Clauses are numbered from 1. A table by variable tells at once what is known of a
/// literal.
#[derive(Drop)]
pub struct Trail {
    lits: Vec<Lit>,
    reasons: Vec<usize>,
    values: Vec<Truth>,
}

impl Model for Trail {
    ghost use Rattle.std.specs.Prelude.{◌≡◌, ◌≤◌, length};
    ghost use Rattle.std.specs.Vec.{vec_capacity};
    ghost use Rattle.ax_proof.specs.Trail.{TrailState};
    ghost use Rattle.ax_proof.specs.Truths.{Tabulates};

    ghost Value = { TrailState };

    ghost view = { λ t. record { lits = t.lits.items; reasons = t.reasons.items; size = length t.values.items } };

    ghost invariant = { λ t. record {
      table : Tabulates t.values.items t.lits.items;
      paired : length t.reasons.items ≡ length t.lits.items;
      room : length t.values.items ≤ vec_capacity t.lits;
      reason_room : length t.values.items ≤ vec_capacity t.reasons;
    } };
}

/// What the table knows of a variable.
fn truth_of(values: &[Truth], var: u64) -> Truth
    ensures { result ≡ slice_index_or values.now var Truth.Open }
{
    values.get(var as usize).copied().unwrap_or(Truth::Open)
}

impl Trail {
    /// An empty trail with room for the variables below `size`.
    pub fn new(alloc: Global, size: usize) -> Result<Trail, AllocError>
        ensures lits { IfOk result (λ t. t.lits ≡ []) }
        ensures reasons { IfOk result (λ t. t.reasons ≡ []) }
        ensures size { IfOk result (λ t. t.size ≡ size) }
    {
        Ok(Trail {
            lits: Vec::with_capacity(alloc, size)?,
            reasons: Vec::with_capacity(alloc, size)?,
            values: vec![in alloc; Truth::Open; size]?,
        })
    }

    /// Makes room for the variables below `size`.
    pub fn widen(&mut self, size: usize) -> Result<(), AllocError>
        requires { self.old.size ≤ size }
        ensures done { OnOk result (self.new ≡ record self.old { size = size }) }
        ensures err { OnErr result (self.new ≡ self.old) }
    {
        let more = size - self.lits.len();
        self.lits.reserve(more)?;
        self.reasons.reserve(more)?;
        self.values.resize(size, Truth::Open)?;
        Ok(())
    }

    /// The literals, in the order in which they became true.
    pub fn lits(&self) -> &[Lit]
        ensures value { result.now ≡ self.now.lits }
        ensures trail { IsTrail self.now }
        ensures below { IsBelow self.now.size self.now.lits }
        ensures consistent { IsConsistent self.now.lits }
    {
        let _ = &self.values;
        self.lits.as_slice()
    }

    /// The numbers of the clauses that forced the literals, in the same order, with 0 where none did.
    pub fn reasons(&self) -> &[usize]
        ensures { result.now ≡ self.now.reasons }
    {
        self.reasons.as_slice()
    }

    /// The variables below this number have room.
    pub fn size(&self) -> usize
        ensures { result ≡ self.now.size }
    {
        self.values.len()
    }

    /// What is known of the literal.
    pub fn truth(&self, lit: Lit) -> Truth
        ensures { Says self.now.lits lit result }
    {
        truth_of(self.values.as_slice(), lit.var()).signed(lit.positive())
    }

    /// Makes an open literal true, forced by the clause of this number, or by none where it is 0.
    pub fn push(&mut self, lit: Lit, reason: usize)
        requires open { IsOpen self.old.lits lit }
        requires within { lit.var < self.old.size }
        ensures lits { self.new.lits ≡ self.old.lits ++ lit ∷ [] }
        ensures reasons { self.new.reasons ≡ self.old.reasons ++ reason ∷ [] }
        ensures size { self.new.size ≡ self.old.size }
    {
        self.values[lit.var() as usize] = Truth::True.signed(lit.positive());
        self.lits.push_reserved(lit);
        self.reasons.push_reserved(reason);
    }

    /// Takes the last literal off.
    fn pop(&mut self)
        requires { 0 < length self.old.lits }
        ensures lits { self.new.lits ≡ take (length self.old.lits - 1) self.old.lits }
        ensures reasons { self.new.reasons ≡ take (length self.old.reasons - 1) self.old.reasons }
        ensures size { self.new.size ≡ self.old.size }
    {
        let _ = self.reasons.pop();
        match self.lits.pop() {
            Some(lit) => self.values[lit.var() as usize] = Truth::Open,
            None => {}
        }
    }

    /// Cuts the trail to its first `len` literals.
    pub fn back(&mut self, len: usize)
        requires { len ≤ length self.old.lits }
        ensures lits { self.new.lits ≡ take len self.old.lits }
        ensures reasons { self.new.reasons ≡ take len self.old.reasons }
        ensures size { self.new.size ≡ self.old.size }
    {
        while self.lits().len() > len {
            self.pop();
        }
    }

    /// What is known of the clause of these literals.
    pub fn judge(&self, lits: &[Lit]) -> Judgement
        requires { IsClause lits.now }
        ensures { Judges self.now.lits lits.now result }
    {
        let mut unit: Option<Lit> = None;
        for lit in lits {
            match self.truth(*lit) {
                Truth::True => return Judgement::Satisfied,
                Truth::False => {}
                Truth::Open => match unit {
                    Some(_) => return Judgement::Undecided,
                    None => unit = Some(*lit),
                },
            }
        }
        match unit {
            Some(lit) => Judgement::Unit(lit),
            None => Judgement::Falsified,
        }
    }
}
