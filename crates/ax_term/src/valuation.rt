//! Values of terms under values of their symbols.
ghost use Rattle.std.specs.Prelude.{◌≡◌, ◌<◌, Bool, IfOk, length, slice_get, Some, take};
ghost use Rattle.ax_base.specs.Arithmetic.{truth};
ghost use Rattle.ax_term.specs.Numbered.{number_of, tree};
ghost use Rattle.ax_term.specs.NumberedOf.{numbered_of};
ghost use Rattle.ax_term.specs.Values.{value_under};
ghost use Rattle.ax_term.specs.Bank.{Among, IsBank};
ghost use Rattle.ax_term.specs.Valuation.{interpretation_of, values_of, ChildrenValued};

use super::{Bank, Node, Term};
use std::alloc::{AllocError, Global};
use std::collections::BTreeMap;

/// A value for each symbol: 0 or false where there is no entry.
#[derive(Drop)]
pub struct Valuation {
    pub words: BTreeMap<u32, i32>,
    pub flags: BTreeMap<u32, bool>,
}

impl Valuation {
    fn word(&self, k: u32) -> i32
        ensures { result ≡ (interpretation_of self.now).words k }
    {
        self.words.get(&k).copied().unwrap_or(0)
    }

    fn flag(&self, k: u32) -> bool
        ensures { result ≡ (interpretation_of self.now).flags k }
    {
        self.flags.get(&k).copied().unwrap_or(false)
    }
}

/// The value of a term of the bank: of a word itself, of a flag 1 or 0.
///
/// It takes memory for a number for each term before this one, and goes over them by number.
pub fn value(
    alloc: Global,
    bank: &Bank,
    term: &Term,
    valuation: &Valuation,
) -> Result<i32, AllocError>
    requires { Among bank.now term.now }
    ensures { IfOk result (λ v. v ≡ value_under (interpretation_of valuation.now) (tree term.now)) }
{
    let _ = &bank.alloc;
    let mut values = Vec::with_capacity(alloc, term.number())?;
    for number in 0..term.number() {
        let earlier = bank.get(number).unwrap();
        let value = value_at(bank, earlier, values.as_slice(), valuation);
        values.push(value)?;
    }
    Ok(value_at(bank, term, values.as_slice(), valuation))
}

/// The value of a term, from the values of the terms before it.
fn value_at(bank: &Bank, term: &Term, values: &[i32], valuation: &Valuation) -> i32
    requires among { Among bank.now term.now }
    requires known { values.now ≡ values_of (interpretation_of valuation.now) (take (number_of term.now) bank.now) }
    ensures { result ≡ value_under (interpretation_of valuation.now) (tree term.now) }
{
    let _ = &bank.alloc;
    evaluate(term.node(), values, valuation)
}

/// The value of a node, from the values of its children.
fn evaluate(node: &Node, values: &[i32], valuation: &Valuation) -> i32
    requires { ChildrenValued (interpretation_of valuation.now) values.now node.now }
    ensures { result ≡ value_under (interpretation_of valuation.now) (tree (numbered_of 0 node.now)) }
{
    match node {
        Node::Word(value) => *value,
        Node::WordSym(k) => valuation.word(*k),
        Node::Flag(value) => i32::from(*value),
        Node::FlagSym(k) => i32::from(valuation.flag(*k)),
        Node::Make(op, a, b) => op.apply(word_value(values, a), word_value(values, b)),
        Node::Compare(op, a, b) => {
            i32::from(op.apply(word_value(values, a), word_value(values, b)))
        }
        Node::No(f) => i32::from(!flag_value(values, f)),
        Node::All(f, g) => {
            let first = flag_value(values, f);
            let second = flag_value(values, g);
            i32::from(first && second)
        }
        Node::Pick(f, a, b) => {
            if flag_value(values, f) {
                word_value(values, a)
            } else {
                word_value(values, b)
            }
        }
    }
}

fn word_value(values: &[i32], child: &Term) -> i32
    requires { number_of child.now < length values.now }
    ensures { slice_get values.now (number_of child.now) ≡ Some result }
{
    values[child.number()]
}

fn flag_value(values: &[i32], child: &Term) -> bool
    requires { number_of child.now < length values.now }
    ensures { (b : Bool) → slice_get values.now (number_of child.now) ≡ Some (truth b) → result ≡ b }
{
    values[child.number()] != 0
}
