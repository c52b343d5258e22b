//! Clauses and lists of clauses.

ghost use Rattle.std.specs.Prelude.{◌^◌, Contains, ◌≡◌, ◌↔◌, ◌<◌, ◌≤◌, All, [], IsTrue, IsNone, IfOk, IfSome, MatchBool, length};
ghost use Rattle.std.specs.List.Sorted.{IsPermutation, IsNonDecreasingBy};
ghost use Rattle.ax_proof.specs.Literal.{negation, code_of};
ghost use Rattle.ax_proof.specs.Clause.{IsClause, Clashes, SameLiterals, Adds, clause_of};

use crate::literal::Lit;
use smallvec::SmallVec;
use std::alloc::{AllocError, Global};
use std::marker::Model;

/// Literals by rising variable, with no variable twice.
#[derive(Drop, Debug)]
pub struct Clause {
    lits: SmallVec<Lit, 4>,
}

impl Model for Clause {
    ghost use Rattle.std.specs.Prelude.{List};
    ghost use Rattle.ax_proof.specs.Literal.{Literal};
    ghost use Rattle.ax_proof.specs.Clause.{IsClause};

    ghost Value = { List Literal };

    ghost view = { λ c. c.lits.items };

    ghost invariant = { λ c. IsClause c.lits.items };
}

/// A line of a proof.
pub type Line = Clause;

/// Clauses over the variables from 1 to `vars`. They are numbered from 1.
#[derive(Drop, Debug)]
pub struct Cnf {
    pub vars: u64,
    pub clauses: Vec<Clause>,
}

/// The literals in the order of their codes.
fn sorted(alloc: Global, lits: &[Lit]) -> Result<SmallVec<Lit, 4>, AllocError>
    ensures moved { IfOk result (λ v. IsPermutation lits.now v.items) }
    ensures rising { IfOk result (λ v. IsNonDecreasingBy code_of v.items) }
{
    let mut all = SmallVec::from_slice(alloc, lits)?;
    all.as_mut_slice().sort_unstable();
    Ok(all)
}

impl Clause {
    /// The clause of these literals, or none where a literal and its negation both stand.
    pub fn from_lits(alloc: Global, lits: &[Lit]) -> Result<Option<Clause>, AllocError>
        ensures none { IfOk result (λ made. IsNone made ↔ Clashes lits.now) }
        ensures same { IfOk result (λ made. IfSome made (λ c. SameLiterals lits.now c)) }
        ensures rising { IfOk result (λ made. IfSome made (λ c. IsClause c)) }
        ensures value { IfOk result (λ made. made ≡ clause_of lits.now) }
    {
        let all = sorted(alloc, lits)?;
        let mut clause = Clause::empty(alloc);
        for lit in all.as_slice() {
            if !clause.append(*lit)? {
                return Ok(None);
            }
        }
        Ok(Some(clause))
    }

    /// The clause of literals whose variables rise.
    pub fn from_rising(lits: SmallVec<Lit, 4>) -> Clause
        requires { IsClause lits.items }
        ensures { result ≡ lits.items }
    {
        Clause { lits }
    }

    /// The clause without literals.
    pub fn empty(alloc: Global) -> Clause
        ensures { result ≡ [] }
    {
        Clause {
            lits: SmallVec::new(alloc),
        }
    }

    /// Puts a literal behind the others, unless it is there; `false` where its negation is.
    fn append(&mut self, lit: Lit) -> Result<bool, AllocError>
        requires { All (λ l. l.var ≤ lit.var) self.old }
        ensures rising { IfOk result (λ fits. IsClause self.new) }
        ensures added { IfOk result (λ fits. MatchBool fits (Adds self.old lit self.new) (Contains self.old (negation lit))) }
    {
        if let Some(last) = self.lits.as_slice().last()
            && last.var() == lit.var()
        {
            return Ok(*last == lit);
        }
        self.lits.push(lit)?;
        Ok(true)
    }

    /// The literals, by rising variable.
    pub fn lits(&self) -> &[Lit]
        ensures value { result.now ≡ self.now }
        ensures rising { IsClause self.now }
    {
        self.lits.as_slice()
    }

    /// The number of literals.
    pub fn len(&self) -> usize
        ensures { result ≡ length self.now }
    {
        self.lits.len()
    }

    pub fn is_empty(&self) -> bool
        ensures { IsTrue result ↔ (self.now ≡ []) }
    {
        self.lits.is_empty()
    }
}
