//! The check that each line of a proof is right with its uses, which reads clauses literal by literal.

ghost use Rattle.std.specs.Prelude.{◌≡◌, ◌↔◌, ◌++◌, ◌+◌, ◌-◌, ◌<◌, ◌≤◌, ℕ, List, [], IfOk, IfErr, OnOk, IsTrue, Some, length, map, take, drop, slice_get};
ghost use Rattle.ax_proof.specs.Literal.{Literal, negation};
ghost use Rattle.ax_proof.specs.Clause.{IsClause};
ghost use Rattle.ax_proof.specs.Trail.{Judges};
ghost use Rattle.ax_proof.specs.Uses.{numbered, IsNumber, IsRight, AreRight, IsFirstWrong, lists, named_literals, all_named_literals};
ghost use Rattle.ax_proof.specs.Denied.{IfFault};

use crate::clause::{Cnf, Line};
use crate::denied::Denied;
use crate::literal::Lit;
use crate::propagation::clause_numbered;
use crate::steps::Steps;
use crate::trail::{Judgement, Trail};
use std::alloc::{AllocError, Global};
use std::sync::ledger::Ledger;

/// A list of clauses, numbered from 1, that is read literal by literal.
pub trait Shown {
    ghost clauses: { Self → List (List Literal) };

    /// The number of clauses.
    fn count(&self) -> u64
        ensures { result ≡ length (clauses self.now) };

    /// The number of literals of the clause of this number.
    fn width(&self, number: u64) -> usize
        requires { IsNumber (clauses self.now) number }
        ensures value { result ≡ length (numbered (clauses self.now) number) }
        ensures rising { IsClause (numbered (clauses self.now) number) };

    /// A literal of the clause of this number, by its place from 0. It counts one step.
    fn lit<L: Ledger>(&self, number: u64, place: usize, steps: &mut Steps<L>) -> Lit
        requires number { IsNumber (clauses self.now) number }
        requires place { place < length (numbered (clauses self.now) number) }
        ensures value { slice_get (numbered (clauses self.now) number) place ≡ Some result }
        ensures step { steps.new ≡ steps.old + 1 };
}

/// Clauses, and lines whose numbers go on from them.
#[derive(Clone, Copy)]
pub struct Both<'a> {
    pub cnf: &'a Cnf,
    pub lines: &'a [Line],
}

impl Shown for Both<'_> {
    ghost use Rattle.std.specs.Prelude.{◌++◌};

    ghost clauses = { λ b. b.cnf.now.clauses.items ++ b.lines.now };

    fn count(&self) -> u64 {
        self.cnf.clauses.len() as u64 + self.lines.len() as u64
    }

    fn width(&self, number: u64) -> usize {
        clause_numbered(self.cnf.clauses.as_slice(), self.lines, number as usize)
            .lits()
            .len()
    }

    fn lit<L: Ledger>(&self, number: u64, place: usize, steps: &mut Steps<L>) -> Lit {
        steps.count();
        clause_numbered(self.cnf.clauses.as_slice(), self.lines, number as usize).lits()[place]
    }
}
