//! The valuation that a model gives.

ghost use Rattle.std.specs.Prelude.{◌≡◌, ◌≤◌, ◌<◌, ℕ, Bool, true, List, IfOk, OnOk, length, slice_get, Some};
ghost use Rattle.ax_proof.specs.Assignment.{lit_value, assigned, satisfies};
ghost use Rattle.ax_gates.specs.Words.{digit};
ghost use Rattle.ax_gates_adders.specs.Adders.{signed_value};
ghost use Rattle.ax_term.specs.Tree.{Tree};
ghost use Rattle.ax_term.specs.Numbered.{tree};
ghost use Rattle.ax_term.specs.Values.{Interpretation};
ghost use Rattle.ax_term.specs.Valuation.{interpretation_of};
ghost use Rattle.ax_term.specs.Order.{order_of, tree_at};
ghost use Rattle.ax_blast.specs.Blasting.{flag_lit, places_of, EachHasValue, AllTrue, Reads};
ghost use Rattle.ax_blast.specs.Table.{table_of};
ghost use Rattle.ax_blast.specs.Blasted.{IsBlasted};
ghost use Rattle.ax_blast.specs.Reading.{word_read, flag_read, word_lits};

use crate::blasted::Blasted;
use ax_proof::{Assignment, Lit};
use ax_term::{Bank, Node, Term, Valuation};
use std::alloc::{AllocError, Global};
use std::collections::BTreeMap;

/// The value of a literal. A variable beyond the model is false.
fn bit(model: &Assignment, lit: Lit) -> bool
    ensures { result ≡ lit_value (assigned model.now.bits.items) lit }
{
    let value = match model.bits.get(lit.var() as usize - 1) {
        Some(bit) => *bit,
        None => false,
    };
    if lit.positive() { value } else { !value }
}

fn digit_of(bit: bool) -> u32
    ensures value { result ≡ digit bit }
    ensures below { result ≤ 1 }
{
    u32::from(bit)
}

/// The number whose bits the literals are.
fn word(model: &Assignment, lits: &[Lit]) -> i32
    requires { length lits.now ≤ 32 }
    ensures { result ≡ signed_value (assigned model.now.bits.items) lits.now }
{
    let mut bits: u32 = 0;
    let mut at = lits.len();
    while at > 0 {
        at -= 1;
        bits = 2 * bits + digit_of(bit(model, lits[at]));
    }
    bits.cast_signed()
}

/// The value of a flag's literal, or false as the literal -1 is where it has none.
fn flag(model: &Assignment, lits: &[Lit]) -> bool
    ensures { result ≡ lit_value (assigned model.now.bits.items) (flag_lit lits.now) }
{
    let lit = match lits.first() {
        Some(lit) => *lit,
        None => Lit::new(1, false),
    };
    bit(model, lit)
}

/// Takes a symbol's value from its literals.
fn read(
    valuation: &mut Valuation,
    model: &Assignment,
    term: &Term,
    lits: &[Lit],
) -> Result<(), AllocError>
    requires { word_lits (tree term.now) (length lits.now) }
    ensures words { OnOk result ((k : ℕ) → (interpretation_of valuation.new).words k ≡ word_read (tree term.now) k (signed_value (assigned model.now.bits.items) lits.now) ((interpretation_of valuation.old).words k)) }
    ensures flags { OnOk result ((k : ℕ) → (interpretation_of valuation.new).flags k ≡ flag_read (tree term.now) k (lit_value (assigned model.now.bits.items) (flag_lit lits.now)) ((interpretation_of valuation.old).flags k)) }
{
    match term.node() {
        Node::WordSym(k) => {
            valuation.words.insert(*k, word(model, lits))?;
        }
        Node::FlagSym(k) => {
            valuation.flags.insert(*k, flag(model, lits))?;
        }
        _ => {}
    }
    Ok(())
}

/// The valuation that a model of a clause list gives: for each symbol of the bank the value of its literals, and 0 or false
/// where it has none.
pub fn model_to_valuation(
    alloc: Global,
    bank: &Bank,
    blasted: &Blasted,
    model: &Assignment,
) -> Result<Valuation, AllocError>
    requires { (asserted : List Tree) × (named : List Tree) × IsBlasted bank.now asserted named blasted.now }
    ensures means { IfOk result (λ r. (asserted named : List Tree) → IsBlasted bank.now asserted named blasted.now → satisfies (assigned model.now.bits.items) blasted.now.cnf.clauses.items ≡ true → EachHasValue (interpretation_of r) (assigned model.now.bits.items) (places_of asserted named) (order_of asserted named)) }
    ensures asserted { IfOk result (λ r. (asserted named : List Tree) → IsBlasted bank.now asserted named blasted.now → satisfies (assigned model.now.bits.items) blasted.now.cnf.clauses.items ≡ true → AllTrue (interpretation_of r) asserted) }
{
    let mut valuation = Valuation {
        words: BTreeMap::new(alloc),
        flags: BTreeMap::new(alloc),
    };
    for number in 0..bank.len() {
        let term = bank.get(number).unwrap();
        read(
            &mut valuation,
            model,
            term,
            blasted.places[number].as_slice(),
        )?;
    }
    Ok(valuation)
}
