//! The clause list of the distinct subterms of terms.

ghost use Rattle.std.specs.Prelude.{◌≡◌, ◌<◌, ◌≤◌, ◌+◌, ◌*◌, ◌^◌, ◌++◌, ◌∷◌, [], ℕ, Bool, true, IfOk, OnOk, length, replicate, slice_set, slice_get, Some};
ghost use Rattle.std.specs.List.{All};
ghost use Rattle.ax_proof.specs.Literal.{IsOver};
ghost use Rattle.ax_proof.specs.Assignment.{satisfies};
ghost use Rattle.ax_gates.specs.Gates.{blocks, as_clause, as_clauses};
ghost use Rattle.ax_gates.specs.Words.{lit_true};
ghost use Rattle.ax_term.specs.Numbered.{Numbered, number_of, tree};
ghost use Rattle.ax_term.specs.Values.{Interpretation};
ghost use Rattle.ax_term.specs.Bank.{IsBank};
ghost use Rattle.ax_term.specs.Order.{trees, trees_at, order_of, AllBelow, AfterChildren};
ghost use Rattle.ax_blast.specs.Blasting.{vars_of, clauses_from, places_from, places_of, flag_lits, units, clause_list, EachHasValue, AllTrue, vars_from};
ghost use Rattle.ax_blast.specs.Table.{table_of, IsTableOf, AllFlags, AllFlagRows, ChildrenSized, node_gates, node_outs, row_flags};
ghost use Rattle.ax_blast.specs.Blasted.{IsBlasted};

use crate::block::{flag_of, term_block};
use ax_gates::push_clause;
use ax_proof::{Clause, Cnf, Lit};
use ax_term::{Bank, Term, order};
use std::alloc::{AllocError, Global};

/// No list has so many terms, since the variables of their blocks have to have numbers.
const MOST_TERMS: usize = 1 << 48;

/// The clauses, the literals of each term by its number, and those of the named flags.
#[derive(Drop)]
pub struct Blasted {
    pub cnf: Cnf,
    /// A word's bits, the lowest first, or a flag's literal. A term that is no subterm has none.
    pub places: Vec<Vec<Lit>>,
    pub named: Vec<Lit>,
}

/// Rows without literals.
fn empty_rows(alloc: Global, count: usize) -> Result<Vec<Vec<Lit>>, AllocError>
    ensures { IfOk result (λ r. table_of r.items ≡ replicate count []) }
{
    let mut rows = Vec::with_capacity(alloc, count)?;
    for _ in 0..count {
        rows.push(Vec::new(alloc))?;
    }
    Ok(rows)
}

/// Appends the block of a term, and keeps its literals.
#[tactic(auto, using(crate::proofs::Tables::table_set))]
fn place(
    alloc: Global,
    cnf: &mut Cnf,
    places: &mut Vec<Vec<Lit>>,
    term: &Term,
) -> Result<(), AllocError>
    requires children { ChildrenSized (table_of places.old.items) term.now }
    requires number { number_of term.now < length places.old.items }
    requires room { cnf.old.vars + 8192 < 2 ^ 62 }
    ensures appends { OnOk result (cnf.new.clauses.items ≡ cnf.old.clauses.items ++ blocks cnf.old.vars (node_gates (table_of places.old.items) cnf.old.vars term.now)) }
    ensures vars { OnOk result (cnf.new.vars ≡ cnf.old.vars + vars_of (tree term.now)) }
    ensures places { OnOk result (table_of places.new.items ≡ slice_set (table_of places.old.items) (number_of term.now) (node_outs (table_of places.old.items) cnf.old.vars term.now)) }
{
    let lits = term_block(alloc, cnf, places.as_slice(), term)?;
    places[term.number()] = lits;
    Ok(())
}

/// The clause that makes variable 1 true.
fn first_clause(alloc: Global) -> Result<Vec<Clause>, AllocError>
    ensures { IfOk result (λ r. r.items ≡ as_clause (lit_true ∷ [])) }
{
    let mut clauses = Vec::new(alloc);
    push_clause(alloc, &mut clauses, &[Lit::new(1, true)])?;
    Ok(clauses)
}

/// That variable 1 is true, and the blocks of these terms.
fn blasted_terms(alloc: Global, bank: &Bank, order: &[usize]) -> Result<Blasted, AllocError>
    requires short { length order.now < 2 ^ 48 }
    requires below { AllBelow (length bank.now) order.now }
    requires after { AfterChildren [] (trees_at bank.now order.now) }
    ensures clauses { IfOk result (λ r. r.cnf.clauses.items ≡ as_clause (lit_true ∷ []) ++ clauses_from [] 1 (trees_at bank.now order.now)) }
    ensures vars { IfOk result (λ r. r.cnf.vars ≡ vars_from 1 (trees_at bank.now order.now)) }
    ensures places { IfOk result (λ r. IsTableOf bank.now (places_from [] 1 (trees_at bank.now order.now)) (table_of r.places.items)) }
    ensures size { IfOk result (λ r. length r.places.items ≡ length bank.now) }
    ensures room { IfOk result (λ r. r.cnf.vars < 2 ^ 62) }
{
    let mut places = empty_rows(alloc, bank.len())?;
    let mut cnf = Cnf {
        vars: 1,
        clauses: first_clause(alloc)?,
    };
    for number in order {
        let term = bank.get(*number).unwrap();
        place(alloc, &mut cnf, &mut places, term)?;
    }
    Ok(Blasted {
        cnf,
        places,
        named: Vec::new(alloc),
    })
}

/// The literals of flags.
fn flags_of(alloc: Global, places: &[Vec<Lit>], flags: &[Term]) -> Result<Vec<Lit>, AllocError>
    requires { AllFlagRows (table_of places.now) flags.now }
    ensures { IfOk result (λ r. r.items ≡ row_flags (table_of places.now) flags.now) }
{
    let mut lits = Vec::with_capacity(alloc, flags.len())?;
    for flag in flags {
        lits.push(flag_of(places, flag))?;
    }
    Ok(lits)
}

/// A clause for each literal.
fn push_units(alloc: Global, clauses: &mut Vec<Clause>, lits: &[Lit]) -> Result<(), AllocError>
    ensures { OnOk result (clauses.new.items ≡ clauses.old.items ++ as_clauses (units lits.now)) }
{
    for lit in lits {
        push_clause(alloc, clauses, &[*lit])?;
    }
    Ok(())
}

#[tactic(auto, using(crate::proofs::Tables::among_flags))]
fn blasted_flags(
    alloc: Global,
    bank: &Bank,
    asserted: &[Term],
    named: &[Term],
) -> Result<Blasted, AllocError>
    requires asserted { AllFlags bank.now asserted.now }
    requires named { AllFlags bank.now named.now }
    ensures blasted { IfOk result (λ b. IsBlasted bank.now (trees asserted.now) (trees named.now) b) }
    ensures vars { IfOk result (λ b. b.cnf.vars < 2 ^ 62) }
{
    let _size = bank.len();
    let numbers = order(alloc, bank, asserted, named)?;
    if numbers.len() >= MOST_TERMS {
        return Err(AllocError);
    }
    let mut blasted = blasted_terms(alloc, bank, numbers.as_slice())?;
    let units = flags_of(alloc, blasted.places.as_slice(), asserted)?;
    push_units(alloc, &mut blasted.cnf.clauses, units.as_slice())?;
    blasted.named = flags_of(alloc, blasted.places.as_slice(), named)?;
    Ok(blasted)
}

/// The clause list of the distinct subterms of flags of the bank: variable 1 is true, each subterm comes once, with its block,
/// after its children, in order of first visit, and then a clause for each asserted flag.
///
/// So many terms that their variables would have no numbers are refused as memory is, which they would not fit into.
pub fn clauses(
    alloc: Global,
    bank: &Bank,
    asserted: &[Term],
    named: &[Term],
) -> Result<Blasted, AllocError>
    requires asserted { AllFlags bank.now asserted.now }
    requires named { AllFlags bank.now named.now }
    ensures blasted { IfOk result (λ b. IsBlasted bank.now (trees asserted.now) (trees named.now) b) }
    ensures extends { IfOk result (λ b. (i : Interpretation) → AllTrue i (trees asserted.now) → (v : ℕ → Bool) × (satisfies v b.cnf.clauses.items ≡ true) × EachHasValue i v (places_of (trees asserted.now) (trees named.now)) (order_of (trees asserted.now) (trees named.now))) }
    ensures bound { IfOk result (λ b. length b.cnf.clauses.items ≤ 64000 * length (order_of (trees asserted.now) (trees named.now)) + length asserted.now + 1) }
    ensures vars { IfOk result (λ b. b.cnf.vars < 2 ^ 62) }
    ensures over { IfOk result (λ b. All (IsOver b.cnf.vars) b.cnf.clauses.items) }
{
    let _size = bank.len();
    blasted_flags(alloc, bank, asserted, named)
}
