//! Operators at words of numbers: the value, and where the operator is defined at such numbers.
ghost use Rattle.std.specs.Prelude.{◌≡◌, ◌≤◌, ◌+◌, IfOk, length};
ghost use Rattle.ax_term.specs.Bank.{HasWord, HasFlag, Stay};
ghost use Rattle.ax_term.specs.Numbered.{tree};
ghost use Rattle.ax_term.specs.Folding.{make_word, make_test, make_no};
ghost use Rattle.ax_term_c.specs.Terms.{number, always, unary_at, strict_at, trees};
ghost use Rattle.ax_term_c.specs.Meaning.{HasBoth};

use super::Known;
use super::arithmetic::{
    can_divide, difference_fits, product_fits, quotient, remainder, shift_keeps, sum_fits,
    within_width,
};
use super::forms::{equals, nonzero, number};
use ax_prog::{Bin, Un};
use ax_term::{Bank, Term, TestOp, WordOp};
use std::alloc::AllocError;

/// A unary operator at a word.
pub(crate) fn unary_at(bank: &mut Bank, op: Un, a: &Term) -> Result<Known, AllocError>
    requires { HasWord bank.old a.now }
    ensures made { IfOk result (λ k. trees k ≡ unary_at op (tree a.now)) }
    ensures has { IfOk result (λ k. HasBoth bank.new k) }
    ensures gains { length bank.new ≤ length bank.old + 6 }
    ensures stay { Stay bank.old bank.new }
{
    match op {
        Un::Neg => negation(bank, a),
        Un::Not => {
            let is_zero = equals(bank, a, 0)?;
            as_number(bank, &is_zero)
        }
        Un::BitNot => {
            let ones = bank.word(-1)?;
            plain(bank, WordOp::Xor, a, &ones)
        }
    }
}

/// A binary operator at two words. What it gives for `&&` and `||` is the truth of `b`, and no expression's value.
pub(crate) fn strict_at(bank: &mut Bank, op: Bin, a: &Term, b: &Term) -> Result<Known, AllocError>
    requires first { HasWord bank.old a.now }
    requires second { HasWord bank.old b.now }
    ensures made { IfOk result (λ k. trees k ≡ strict_at op (tree a.now) (tree b.now)) }
    ensures has { IfOk result (λ k. HasBoth bank.new k) }
    ensures gains { length bank.new ≤ length bank.old + 27 }
    ensures stay { Stay bank.old bank.new }
{
    match op {
        Bin::Eq => test(bank, TestOp::Eq, a, b),
        Bin::Ne => denied(bank, TestOp::Eq, a, b),
        Bin::Lt => test(bank, TestOp::Lt, a, b),
        Bin::Le => denied(bank, TestOp::Lt, b, a),
        Bin::Gt => test(bank, TestOp::Lt, b, a),
        Bin::Ge => denied(bank, TestOp::Lt, a, b),
        Bin::And | Bin::Or => {
            let truth = nonzero(bank, b)?;
            as_number(bank, &truth)
        }
        Bin::Add => sum(bank, a, b),
        Bin::Sub => difference(bank, a, b),
        Bin::Mul => product(bank, a, b),
        Bin::Div => division(bank, a, b),
        Bin::Rem => rest(bank, a, b),
        Bin::BitAnd => plain(bank, WordOp::And, a, b),
        Bin::BitOr => plain(bank, WordOp::Or, a, b),
        Bin::BitXor => plain(bank, WordOp::Xor, a, b),
        Bin::Shl => shift_left(bank, a, b),
        Bin::Shr => shift_right(bank, a, b),
    }
}

/// The flag's number, defined everywhere.
fn as_number(bank: &mut Bank, f: &Term) -> Result<Known, AllocError>
    requires { HasFlag bank.old f.now }
    ensures made { IfOk result (λ k. trees k ≡ always (number (tree f.now))) }
    ensures has { IfOk result (λ k. HasBoth bank.new k) }
    ensures gains { length bank.new ≤ length bank.old + 4 }
    ensures stay { Stay bank.old bank.new }
{
    let value = number(bank, f)?;
    let defined = bank.flag(true)?;
    Ok(Known { value, defined })
}

/// The number of a test, defined everywhere.
fn test(bank: &mut Bank, op: TestOp, a: &Term, b: &Term) -> Result<Known, AllocError>
    requires first { HasWord bank.old a.now }
    requires second { HasWord bank.old b.now }
    ensures made { IfOk result (λ k. trees k ≡ always (number (make_test op (tree a.now) (tree b.now)))) }
    ensures has { IfOk result (λ k. HasBoth bank.new k) }
    ensures gains { length bank.new ≤ length bank.old + 5 }
    ensures stay { Stay bank.old bank.new }
{
    let holds = bank.make_test(op, a, b)?;
    as_number(bank, &holds)
}

/// The number of a denied test, defined everywhere.
fn denied(bank: &mut Bank, op: TestOp, a: &Term, b: &Term) -> Result<Known, AllocError>
    requires first { HasWord bank.old a.now }
    requires second { HasWord bank.old b.now }
    ensures made { IfOk result (λ k. trees k ≡ always (number (make_no (make_test op (tree a.now) (tree b.now))))) }
    ensures has { IfOk result (λ k. HasBoth bank.new k) }
    ensures gains { length bank.new ≤ length bank.old + 6 }
    ensures stay { Stay bank.old bank.new }
{
    let holds = bank.make_test(op, a, b)?;
    let fails = bank.make_no(&holds)?;
    as_number(bank, &fails)
}

/// An operator's word, defined everywhere.
fn plain(bank: &mut Bank, op: WordOp, a: &Term, b: &Term) -> Result<Known, AllocError>
    requires first { HasWord bank.old a.now }
    requires second { HasWord bank.old b.now }
    ensures made { IfOk result (λ k. trees k ≡ always (make_word op (tree a.now) (tree b.now))) }
    ensures has { IfOk result (λ k. HasBoth bank.new k) }
    ensures gains { length bank.new ≤ length bank.old + 2 }
    ensures stay { Stay bank.old bank.new }
{
    let value = bank.make_word(op, a, b)?;
    let defined = bank.flag(true)?;
    Ok(Known { value, defined })
}

/// `-a`.
fn negation(bank: &mut Bank, a: &Term) -> Result<Known, AllocError>
    requires { HasWord bank.old a.now }
    ensures made { IfOk result (λ k. trees k ≡ unary_at Un.Neg (tree a.now)) }
    ensures has { IfOk result (λ k. HasBoth bank.new k) }
    ensures gains { length bank.new ≤ length bank.old + 5 }
    ensures stay { Stay bank.old bank.new }
{
    let zero = bank.word(0)?;
    let value = bank.make_word(WordOp::Sub, &zero, a)?;
    let is_least = equals(bank, a, i32::MIN)?;
    let defined = bank.make_no(&is_least)?;
    Ok(Known { value, defined })
}

/// `a + b`.
fn sum(bank: &mut Bank, a: &Term, b: &Term) -> Result<Known, AllocError>
    requires first { HasWord bank.old a.now }
    requires second { HasWord bank.old b.now }
    ensures made { IfOk result (λ k. trees k ≡ strict_at Bin.Add (tree a.now) (tree b.now)) }
    ensures has { IfOk result (λ k. HasBoth bank.new k) }
    ensures gains { length bank.new ≤ length bank.old + 7 }
    ensures stay { Stay bank.old bank.new }
{
    let value = bank.make_word(WordOp::Add, a, b)?;
    let defined = sum_fits(bank, a, b, &value)?;
    Ok(Known { value, defined })
}

/// `a - b`.
fn difference(bank: &mut Bank, a: &Term, b: &Term) -> Result<Known, AllocError>
    requires first { HasWord bank.old a.now }
    requires second { HasWord bank.old b.now }
    ensures made { IfOk result (λ k. trees k ≡ strict_at Bin.Sub (tree a.now) (tree b.now)) }
    ensures has { IfOk result (λ k. HasBoth bank.new k) }
    ensures gains { length bank.new ≤ length bank.old + 7 }
    ensures stay { Stay bank.old bank.new }
{
    let value = bank.make_word(WordOp::Sub, a, b)?;
    let defined = difference_fits(bank, a, b, &value)?;
    Ok(Known { value, defined })
}

/// `a * b`.
fn product(bank: &mut Bank, a: &Term, b: &Term) -> Result<Known, AllocError>
    requires first { HasWord bank.old a.now }
    requires second { HasWord bank.old b.now }
    ensures made { IfOk result (λ k. trees k ≡ strict_at Bin.Mul (tree a.now) (tree b.now)) }
    ensures has { IfOk result (λ k. HasBoth bank.new k) }
    ensures gains { length bank.new ≤ length bank.old + 5 }
    ensures stay { Stay bank.old bank.new }
{
    let value = bank.make_word(WordOp::Mul, a, b)?;
    let defined = product_fits(bank, a, b, &value)?;
    Ok(Known { value, defined })
}

/// `a / b`.
fn division(bank: &mut Bank, a: &Term, b: &Term) -> Result<Known, AllocError>
    requires first { HasWord bank.old a.now }
    requires second { HasWord bank.old b.now }
    ensures made { IfOk result (λ k. trees k ≡ strict_at Bin.Div (tree a.now) (tree b.now)) }
    ensures has { IfOk result (λ k. HasBoth bank.new k) }
    ensures gains { length bank.new ≤ length bank.old + 27 }
    ensures stay { Stay bank.old bank.new }
{
    let value = quotient(bank, a, b)?;
    let defined = can_divide(bank, a, b)?;
    Ok(Known { value, defined })
}

/// `a % b`.
fn rest(bank: &mut Bank, a: &Term, b: &Term) -> Result<Known, AllocError>
    requires first { HasWord bank.old a.now }
    requires second { HasWord bank.old b.now }
    ensures made { IfOk result (λ k. trees k ≡ strict_at Bin.Rem (tree a.now) (tree b.now)) }
    ensures has { IfOk result (λ k. HasBoth bank.new k) }
    ensures gains { length bank.new ≤ length bank.old + 26 }
    ensures stay { Stay bank.old bank.new }
{
    let value = remainder(bank, a, b)?;
    let defined = can_divide(bank, a, b)?;
    Ok(Known { value, defined })
}

/// `a << b`.
fn shift_left(bank: &mut Bank, a: &Term, b: &Term) -> Result<Known, AllocError>
    requires first { HasWord bank.old a.now }
    requires second { HasWord bank.old b.now }
    ensures made { IfOk result (λ k. trees k ≡ strict_at Bin.Shl (tree a.now) (tree b.now)) }
    ensures has { IfOk result (λ k. HasBoth bank.new k) }
    ensures gains { length bank.new ≤ length bank.old + 14 }
    ensures stay { Stay bank.old bank.new }
{
    let value = bank.make_word(WordOp::Shl, a, b)?;
    let defined = shift_keeps(bank, a, b, &value)?;
    Ok(Known { value, defined })
}

/// `a >> b`.
fn shift_right(bank: &mut Bank, a: &Term, b: &Term) -> Result<Known, AllocError>
    requires first { HasWord bank.old a.now }
    requires second { HasWord bank.old b.now }
    ensures made { IfOk result (λ k. trees k ≡ strict_at Bin.Shr (tree a.now) (tree b.now)) }
    ensures has { IfOk result (λ k. HasBoth bank.new k) }
    ensures gains { length bank.new ≤ length bank.old + 7 }
    ensures stay { Stay bank.old bank.new }
{
    let value = bank.make_word(WordOp::Shr, a, b)?;
    let defined = within_width(bank, b)?;
    Ok(Known { value, defined })
}
