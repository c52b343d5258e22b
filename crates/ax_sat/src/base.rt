//! Clauses that are asked for models, again and again.

ghost use Rattle.std.specs.Prelude.{◌≡◌, ◌≢◌, ◌++◌, ◌+◌, ◌<◌, ◌≤◌, ◌^◌, [], All, IfOk, OnOk, OnErr, length};
ghost use Rattle.ax_proof.specs.Literal.{IsOver};
ghost use Rattle.ax_proof.specs.Lines.{IsLawful};
ghost use Rattle.ax_sat.specs.Answer.{AnswerSays, LogGoesOn, units};
ghost use Rattle.ax_sat.specs.Base.{BaseState};

use crate::answer::{Answer, Log};
use crate::counts::Counts;
use crate::search::search;
use ax_proof::{Clause, Cnf, Lit};
use std::alloc::{AllocError, Global};
use std::marker::Model;

/// Clauses over the variables from 1 to some number.
#[derive(Drop)]
pub struct Base {
    alloc: Global,
    vars: u64,
    clauses: Vec<Clause>,
    counts: Counts,
}

impl Model for Base {
    ghost use Rattle.ax_sat.specs.Base.{BaseState, IsBase};

    ghost Value = { BaseState };

    ghost view = { λ b. record { vars = b.vars; clauses = b.clauses.items } };

    ghost invariant = { λ b. IsBase (record { vars = b.vars; clauses = b.clauses.items }) };
}

/// The same clauses in memory of their own.
fn copied(alloc: Global, clauses: &[Clause]) -> Result<Vec<Clause>, AllocError>
    ensures { IfOk result (λ copies. copies.items ≡ clauses.now) }
{
    let mut copies = Vec::new(alloc);
    for clause in clauses {
        match Clause::from_lits(alloc, clause.lits())? {
            Some(copy) => copies.push(copy)?,
            None => unreachable!(),
        }
    }
    Ok(copies)
}

impl Base {
    /// The clauses of `cnf`.
    pub fn new(alloc: Global, cnf: &Cnf) -> Result<Base, AllocError>
        requires vars { cnf.now.vars < 2 ^ 63 }
        requires over { All (IsOver cnf.now.vars) cnf.now.clauses.items }
        ensures vars { IfOk result (λ base. base.vars ≡ cnf.now.vars) }
        ensures clauses { IfOk result (λ base. base.clauses ≡ cnf.now.clauses.items) }
    {
        let clauses = copied(alloc, cnf.clauses.as_slice())?;
        Ok(Base {
            alloc,
            vars: cnf.vars,
            clauses,
            counts: Counts::new(),
        })
    }

    /// Puts clauses behind the others, and makes `vars` the number of variables.
    pub fn add(&mut self, vars: u64, clauses: &[Clause]) -> Result<(), AllocError>
        requires more { self.old.vars ≤ vars }
        requires vars { vars < 2 ^ 63 }
        requires over { All (IsOver vars) clauses.now }
        ensures added { OnOk result (self.new.clauses ≡ self.old.clauses ++ clauses.now) }
        ensures vars { OnOk result (self.new.vars ≡ vars) }
        ensures refused { OnErr result (self.new ≡ self.old) }
    {
        let mut more = copied(self.alloc, clauses)?;
        self.clauses.append(&mut more)?;
        self.vars = vars;
        Ok(())
    }

    /// Searches for a model in which the assumptions hold, and puts the lines that it learns into the log, at most
    /// `budget` of them and an empty one.
    pub fn ask(
        &mut self,
        assumptions: &[Lit],
        log: &mut Log,
        budget: u32,
    ) -> Result<Answer, AllocError>
        requires budget { 1 ≤ budget }
        requires assumptions { IsOver self.old.vars assumptions.now }
        requires lines { All (IsOver self.old.vars) log.old.lines.items }
        requires not_empty { All (λ line. line ≢ []) log.old.lines.items }
        requires lawful { IsLawful (self.old.clauses ++ units assumptions.now) log.old.lines.items }
        ensures kept { self.new ≡ self.old }
        ensures log { LogGoesOn self.old.clauses assumptions.now self.old.vars log.old.lines.items log.new.lines.items }
        ensures answer { IfOk result (λ answer. AnswerSays (self.old.clauses ++ units assumptions.now) self.old.vars log.old.lines.items log.new.lines.items budget answer) }
    {
        search(
            self.alloc,
            self.vars,
            self.clauses.as_slice(),
            assumptions,
            log,
            budget,
            &mut self.counts,
        )
    }

    /// What the last `ask` did that came to an answer; nothing where none did. No answer rests on it.
    pub fn counts(&self) -> Counts {
        self.counts
    }
}

/// Searches for a model of the clauses in which the assumptions hold: `Base::new`, and one `ask`.
pub fn solve(
    alloc: Global,
    cnf: &Cnf,
    assumptions: &[Lit],
    log: &mut Log,
    budget: u32,
) -> Result<Answer, AllocError>
    requires budget { 1 ≤ budget }
    requires vars { cnf.now.vars < 2 ^ 63 }
    requires over { All (IsOver cnf.now.vars) cnf.now.clauses.items }
    requires assumptions { IsOver cnf.now.vars assumptions.now }
    requires lines { All (IsOver cnf.now.vars) log.old.lines.items }
    requires not_empty { All (λ line. line ≢ []) log.old.lines.items }
    requires lawful { IsLawful (cnf.now.clauses.items ++ units assumptions.now) log.old.lines.items }
    ensures log { LogGoesOn cnf.now.clauses.items assumptions.now cnf.now.vars log.old.lines.items log.new.lines.items }
    ensures answer { IfOk result (λ answer. AnswerSays (cnf.now.clauses.items ++ units assumptions.now) cnf.now.vars log.old.lines.items log.new.lines.items budget answer) }
{
    let mut base = Base::new(alloc, cnf)?;
    base.ask(assumptions, log, budget)
}
