//! Worked examples of the clauses of terms: numbers of variables and clauses counted by hand.

ghost use Rattle.std.specs.Prelude.{◌≡◌, List};
ghost use Rattle.ax_term.specs.Tree.{Tree};
ghost use Rattle.ax_term.specs.Bank.{Among, HasWord, HasFlag, Stay};
ghost use Rattle.ax_blast.specs.Table.{AllFlags};
ghost use Rattle.ax_blast.specs.Blasted.{IsBlasted};

use crate::terms::doubled;
use ax_blast::{Blasted, clauses, model_to_valuation};
use ax_proof::{Assignment, Clause, Lit};
use ax_term::{Bank, Term, TestOp, WordOp, value};
use std::alloc::{AllocError, Global};
use std::process::Abort;
use std::test::Fail;

/// A symbol has 32 variables and equality 33; equality has 161 clauses, and two more are the first and the last.
#[test]
fn a_symbol_that_equals_five(rt: HostRuntime) -> Result<(), Fail> {
    let mut bank = Bank::new(rt.alloc());
    let x = bank.word_sym(0)?;
    let five = bank.word(5)?;
    let test = bank.make_test(TestOp::Eq, &x, &five)?;
    let asserted = vec![in rt.alloc(); test]?;
    let blasted = clauses(rt.alloc(), &bank, &asserted, &[])?;
    assert_eq!(rt; blasted.cnf.vars, 66);
    assert_eq!(rt; blasted.cnf.clauses.len(), 163);
    let model = Assignment {
        bits: vec![in rt.alloc(); true, true, false, true]?,
    };
    let valuation = model_to_valuation(rt.alloc(), &bank, &blasted, &model)?;
    assert_eq!(rt; valuation.words.get(&0), Some(&5));
    Ok(())
}

/// The literal of a clause that has no value yet, where all others are false.
fn forced(rt: &impl Abort, lits: &[Lit], values: &[Option<bool>]) -> Option<Lit> {
    let mut open = None;
    for lit in lits {
        let var = lit.var() as usize;
        assert!(rt; var < values.len());
        match values[var] {
            Some(value) => {
                if value == lit.positive() {
                    return None;
                }
            }
            None => open = Some(*lit),
        }
    }
    open
}

/// The values that the clauses force one after another.
fn complete(rt: &impl Abort, clauses: &[Clause], values: &mut [Option<bool>]) {
    for clause in clauses {
        if let Some(lit) = forced(rt, clause.lits(), values) {
            let var = lit.var() as usize;
            assert!(rt; var < values.len());
            values[var] = Some(lit.positive());
        }
    }
}

/// Gives a symbol's bits, from the lowest on, those of a number.
fn set(rt: &impl Abort, values: &mut [Option<bool>], lits: &[Lit], number: u32) {
    let mut rest = number;
    for lit in lits {
        let var = lit.var() as usize;
        assert!(rt; var < values.len());
        values[var] = Some(rest % 2 == 1);
        rest /= 2;
    }
}

/// Whether the named flag is true in the model in which the symbols have these numbers, and the flag's value under the
/// model's valuation.
fn both_values(
    rt: &impl Abort,
    alloc: Global,
    bank: &Bank,
    flag: &Term,
    blasted: &Blasted,
    numbers: &[(usize, u32)],
) -> Result<(bool, i32), AllocError>
    requires term { Among bank.now flag.now }
    requires blasted { (asserted : List Tree) × (named : List Tree) × IsBlasted bank.now asserted named blasted.now }
{
    let vars = blasted.cnf.vars;
    assert!(rt; vars < 10_000_000);
    let mut values = vec![in alloc; None; vars as usize + 1]?;
    for (place, number) in numbers {
        assert!(rt; *place < blasted.places.len());
        set(
            rt,
            values.as_mut_slice(),
            blasted.places[*place].as_slice(),
            *number,
        );
    }
    complete(rt, blasted.cnf.clauses.as_slice(), values.as_mut_slice());
    let mut bits = Vec::new(alloc);
    for bit in values.iter().skip(1) {
        bits.push(*bit == Some(true))?;
    }
    let model = Assignment { bits };
    let valuation = model_to_valuation(alloc, bank, blasted, &model)?;
    let value = value(alloc, bank, flag, &valuation)?;
    assert!(rt; !blasted.named.is_empty());
    let lit = blasted.named[0];
    assert!(rt; lit.var() as usize <= model.bits.len());
    Ok((model.value(lit), value))
}

/// Quotients by a table, of a word that 10,000 shared terms lead to.
#[test]
fn a_shared_term_and_a_quotient(rt: HostRuntime) -> Result<(), Fail> {
    let mut bank = Bank::new(rt.alloc());
    let x = bank.word_sym(0)?;
    let top = doubled(&mut bank, &x, 10_000)?;
    let y = bank.word_sym(1)?;
    let z = bank.word_sym(2)?;
    let quotient = bank.make_word(WordOp::Quot, &top, &y)?;
    let flag = bank.make_test(TestOp::Eq, &quotient, &z)?;
    let named = vec![in rt.alloc(); flag.clone()?]?;
    let blasted = clauses(rt.alloc(), &bank, &[], named.as_slice())?;
    let table = [
        (7, 2, 3, true),
        (7, 2, 4, false),
        (7, 0, u32::MAX, true),
        (u32::MAX - 6, 2, 0x7fff_fffc, true),
    ];
    for (a, b, c, equal) in table {
        let numbers = [(x.number(), a), (y.number(), b), (z.number(), c)];
        let (bit, value) = both_values(&rt, rt.alloc(), &bank, &flag, &blasted, &numbers)?;
        assert_eq!(rt; bit, equal);
        assert_eq!(rt; value, i32::from(equal));
    }
    Ok(())
}
