//! C's operators on `int` as shared terms, each with the flag of where it is defined.
//!
//! An `int` is a `Known`: two terms of a bank. Under values of the symbols it means a number, or nothing where it
//! isn't defined. `unary`, `binary` and `choose` give for what their operands mean what C gives: they are undefined
//! where C11 leaves an expression undefined, and ask for an operand only where C evaluates it.
#![tactic(auto)]

ghost use Rattle.std.specs.Prelude.{◌≡◌, ◌≤◌, ◌+◌, IfOk, length};
ghost use Rattle.ax_term.specs.Bank.{HasWord, HasFlag, Stay};
ghost use Rattle.ax_term.specs.Numbered.{tree};
ghost use Rattle.ax_term.specs.Folding.{make_all};
ghost use Rattle.ax_term.specs.Values.{Interpretation};
ghost use Rattle.ax_term_c.specs.Operators.{unary_of, binary_of, choice_of};
ghost use Rattle.ax_term_c.specs.Terms.{with_flag, unary_trees, strict_trees, and_trees, or_trees, binary_trees, choice_trees, trees};
ghost use Rattle.ax_term_c.specs.Meaning.{meaning, HasBoth};

mod arithmetic;
mod at_words;
mod forms;

use at_words::{strict_at, unary_at};
use ax_prog::{Bin, Un};
use ax_term::{Bank, Term};
pub use forms::{any, inside, nonzero, number};
use std::alloc::AllocError;

/// An `int` as terms of a bank: the word of its value, and the flag of where it is defined.
///
/// Where the flag is false the value says nothing.
#[derive(Drop)]
pub struct Known {
    pub value: Term,
    pub defined: Term,
}

/// `-a`, `!a` or `~a` (C11 6.5.3.3).
///
/// It refuses for want of memory alone; then too each earlier term stays the bank's.
#[tactic(auto, using(crate::proofs::Laws::unary_law), unfolding(crate::specs::Terms::unary_trees))]
pub fn unary(bank: &mut Bank, op: Un, a: &Known) -> Result<Known, AllocError>
    requires { HasBoth bank.old a.now }
    ensures made { IfOk result (λ k. trees k ≡ unary_trees op (trees a.now)) }
    ensures means { (i : Interpretation) → meaning i (unary_trees op (trees a.now)) ≡ unary_of op (meaning i (trees a.now)) }
    ensures has { IfOk result (λ k. HasBoth bank.new k) }
    ensures gains { length bank.new ≤ length bank.old + 7 }
    ensures stay { Stay bank.old bank.new }
{
    let at = unary_at(bank, op, &a.value)?;
    after(bank, &a.defined, at)
}

/// A binary operator (C11 6.5.5 to 6.5.14). `&&` and `||` ask for `b` only where `a` doesn't decide.
///
/// It refuses for want of memory alone; then too each earlier term stays the bank's.
#[tactic(auto, using(crate::proofs::Laws::binary_law))]
pub fn binary(bank: &mut Bank, op: Bin, a: &Known, b: &Known) -> Result<Known, AllocError>
    requires first { HasBoth bank.old a.now }
    requires second { HasBoth bank.old b.now }
    ensures made { IfOk result (λ k. trees k ≡ binary_trees op (trees a.now) (trees b.now)) }
    ensures means { (i : Interpretation) → meaning i (binary_trees op (trees a.now) (trees b.now)) ≡ binary_of op (meaning i (trees a.now)) (meaning i (trees b.now)) }
    ensures has { IfOk result (λ k. HasBoth bank.new k) }
    ensures gains { length bank.new ≤ length bank.old + 29 }
    ensures stay { Stay bank.old bank.new }
{
    match op {
        Bin::And => conjunction(bank, a, b),
        Bin::Or => disjunction(bank, a, b),
        _ => strict(bank, op, a, b),
    }
}

/// `f ? a : b` (C11 6.5.15), which asks for one of `a` and `b` alone.
///
/// It refuses for want of memory alone; then too each earlier term stays the bank's.
#[tactic(auto, using(crate::proofs::Laws::choice_law), unfolding(crate::specs::Terms::choice_trees))]
pub fn choose(bank: &mut Bank, f: &Known, a: &Known, b: &Known) -> Result<Known, AllocError>
    requires guard { HasBoth bank.old f.now }
    requires first { HasBoth bank.old a.now }
    requires second { HasBoth bank.old b.now }
    ensures made { IfOk result (λ k. trees k ≡ choice_trees (trees f.now) (trees a.now) (trees b.now)) }
    ensures means { (i : Interpretation) → meaning i (choice_trees (trees f.now) (trees a.now) (trees b.now)) ≡ choice_of (meaning i (trees f.now)) (meaning i (trees a.now)) (meaning i (trees b.now)) }
    ensures has { IfOk result (λ k. HasBoth bank.new k) }
    ensures gains { length bank.new ≤ length bank.old + 12 }
    ensures stay { Stay bank.old bank.new }
{
    let yes = nonzero(bank, &f.value)?;
    let value = bank.make_pick(&yes, &a.value, &b.value)?;
    let asked_first = bank.make_all(&yes, &a.defined)?;
    let no = bank.make_no(&yes)?;
    let asked_second = bank.make_all(&no, &b.defined)?;
    let asked = any(bank, &asked_first, &asked_second)?;
    let defined = bank.make_all(&f.defined, &asked)?;
    Ok(Known { value, defined })
}

/// An operator that needs both operands.
#[tactic(auto, unfolding(crate::specs::Terms::strict_trees))]
fn strict(bank: &mut Bank, op: Bin, a: &Known, b: &Known) -> Result<Known, AllocError>
    requires first { HasBoth bank.old a.now }
    requires second { HasBoth bank.old b.now }
    ensures made { IfOk result (λ k. trees k ≡ strict_trees op (trees a.now) (trees b.now)) }
    ensures has { IfOk result (λ k. HasBoth bank.new k) }
    ensures gains { length bank.new ≤ length bank.old + 29 }
    ensures stay { Stay bank.old bank.new }
{
    let both = bank.make_all(&a.defined, &b.defined)?;
    let at = strict_at(bank, op, &a.value, &b.value)?;
    after(bank, &both, at)
}

/// `a && b`.
#[tactic(auto, unfolding(crate::specs::Terms::and_trees))]
fn conjunction(bank: &mut Bank, a: &Known, b: &Known) -> Result<Known, AllocError>
    requires first { HasBoth bank.old a.now }
    requires second { HasBoth bank.old b.now }
    ensures made { IfOk result (λ k. trees k ≡ and_trees (trees a.now) (trees b.now)) }
    ensures has { IfOk result (λ k. HasBoth bank.new k) }
    ensures gains { length bank.new ≤ length bank.old + 17 }
    ensures stay { Stay bank.old bank.new }
{
    let first = nonzero(bank, &a.value)?;
    let second = nonzero(bank, &b.value)?;
    let truth = number(bank, &second)?;
    let zero = bank.word(0)?;
    let value = bank.make_pick(&first, &truth, &zero)?;
    let decided = bank.make_no(&first)?;
    let asked = any(bank, &decided, &b.defined)?;
    let defined = bank.make_all(&a.defined, &asked)?;
    Ok(Known { value, defined })
}

/// `a || b`.
#[tactic(auto, unfolding(crate::specs::Terms::or_trees))]
fn disjunction(bank: &mut Bank, a: &Known, b: &Known) -> Result<Known, AllocError>
    requires first { HasBoth bank.old a.now }
    requires second { HasBoth bank.old b.now }
    ensures made { IfOk result (λ k. trees k ≡ or_trees (trees a.now) (trees b.now)) }
    ensures has { IfOk result (λ k. HasBoth bank.new k) }
    ensures gains { length bank.new ≤ length bank.old + 16 }
    ensures stay { Stay bank.old bank.new }
{
    let first = nonzero(bank, &a.value)?;
    let second = nonzero(bank, &b.value)?;
    let truth = number(bank, &second)?;
    let one = bank.word(1)?;
    let value = bank.make_pick(&first, &one, &truth)?;
    let asked = any(bank, &first, &b.defined)?;
    let defined = bank.make_all(&a.defined, &asked)?;
    Ok(Known { value, defined })
}

/// The value `at`, defined where it is and where the flag `before` is true.
fn after(bank: &mut Bank, before: &Term, at: Known) -> Result<Known, AllocError>
    requires guard { HasFlag bank.old before.now }
    requires has_at { HasBoth bank.old at }
    ensures made { IfOk result (λ k. trees k ≡ with_flag (tree at.value) (make_all (tree before.now) (tree at.defined))) }
    ensures has { IfOk result (λ k. HasBoth bank.new k) }
    ensures gains { length bank.new ≤ length bank.old + 1 }
    ensures stay { Stay bank.old bank.new }
{
    let Known { value, defined } = at;
    let defined = bank.make_all(before, &defined)?;
    Ok(Known { value, defined })
}
