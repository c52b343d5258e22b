//! Values of the arithmetic operators at two words, and where they are defined.
ghost use Rattle.std.specs.Prelude.{◌≡◌, ◌≤◌, ◌+◌, pos, IfOk, length};
ghost use Rattle.ax_term.specs.Tree.{word};
ghost use Rattle.ax_term.specs.Bank.{HasWord, HasFlag, Stay};
ghost use Rattle.ax_term.specs.Numbered.{tree};
ghost use Rattle.ax_term_c.specs.Terms.{inside, not_both_apart, sum_fits, difference_fits, product_fits, can_divide, shift_keeps, quotient, remainder};

use super::forms::{equals, inside, magnitude, negated_where, negative, nonzero};
use ax_term::{Bank, Term, TestOp, WordOp};
use std::alloc::AllocError;

/// The flag that is false where `p` and `q` differ in their signs, and `r` and `s` too.
#[tactic(auto, unfolding(crate::specs::Terms::not_both_apart))]
fn not_both_apart(
    bank: &mut Bank,
    p: &Term,
    q: &Term,
    r: &Term,
    s: &Term,
) -> Result<Term, AllocError>
    requires p_in { HasWord bank.old p.now }
    requires q_in { HasWord bank.old q.now }
    requires r_in { HasWord bank.old r.now }
    requires s_in { HasWord bank.old s.now }
    ensures made { IfOk result (λ t. tree t ≡ not_both_apart (tree p.now) (tree q.now) (tree r.now) (tree s.now)) }
    ensures has { IfOk result (λ t. HasFlag bank.new t) }
    ensures gains { length bank.new ≤ length bank.old + 6 }
    ensures stay { Stay bank.old bank.new }
{
    let first = bank.make_word(WordOp::Xor, p, q)?;
    let second = bank.make_word(WordOp::Xor, r, s)?;
    let both = bank.make_word(WordOp::And, &first, &second)?;
    let apart = negative(bank, &both)?;
    bank.make_no(&apart)
}

/// Where `a + b` is defined; `sum` is its wrapped value.
#[tactic(auto, unfolding(crate::specs::Terms::sum_fits))]
pub(crate) fn sum_fits(bank: &mut Bank, a: &Term, b: &Term, sum: &Term) -> Result<Term, AllocError>
    requires first { HasWord bank.old a.now }
    requires second { HasWord bank.old b.now }
    requires value { HasWord bank.old sum.now }
    ensures made { IfOk result (λ t. tree t ≡ sum_fits (tree a.now) (tree b.now) (tree sum.now)) }
    ensures has { IfOk result (λ t. HasFlag bank.new t) }
    ensures gains { length bank.new ≤ length bank.old + 6 }
    ensures stay { Stay bank.old bank.new }
{
    not_both_apart(bank, a, sum, b, sum)
}

/// Where `a - b` is defined; `difference` is its wrapped value.
#[tactic(auto, unfolding(crate::specs::Terms::difference_fits))]
pub(crate) fn difference_fits(
    bank: &mut Bank,
    a: &Term,
    b: &Term,
    difference: &Term,
) -> Result<Term, AllocError>
    requires first { HasWord bank.old a.now }
    requires second { HasWord bank.old b.now }
    requires value { HasWord bank.old difference.now }
    ensures made { IfOk result (λ t. tree t ≡ difference_fits (tree a.now) (tree b.now) (tree difference.now)) }
    ensures has { IfOk result (λ t. HasFlag bank.new t) }
    ensures gains { length bank.new ≤ length bank.old + 6 }
    ensures stay { Stay bank.old bank.new }
{
    not_both_apart(bank, a, b, a, difference)
}

/// Where `a * b` is defined; `product` is its wrapped value.
#[tactic(auto, unfolding(crate::specs::Terms::product_fits))]
pub(crate) fn product_fits(
    bank: &mut Bank,
    a: &Term,
    b: &Term,
    product: &Term,
) -> Result<Term, AllocError>
    requires first { HasWord bank.old a.now }
    requires second { HasWord bank.old b.now }
    requires value { HasWord bank.old product.now }
    ensures made { IfOk result (λ t. tree t ≡ product_fits (tree a.now) (tree b.now) (tree product.now)) }
    ensures has { IfOk result (λ t. HasFlag bank.new t) }
    ensures gains { length bank.new ≤ length bank.old + 4 }
    ensures stay { Stay bank.old bank.new }
{
    let high = bank.make_word(WordOp::High, a, b)?;
    let count = bank.word(31)?;
    let sign = bank.make_word(WordOp::Shr, product, &count)?;
    bank.make_test(TestOp::Eq, &high, &sign)
}

/// Where `a / b` and `a % b` are defined.
#[tactic(auto, unfolding(crate::specs::Terms::can_divide))]
pub(crate) fn can_divide(bank: &mut Bank, a: &Term, b: &Term) -> Result<Term, AllocError>
    requires first { HasWord bank.old a.now }
    requires second { HasWord bank.old b.now }
    ensures made { IfOk result (λ t. tree t ≡ can_divide (tree a.now) (tree b.now)) }
    ensures has { IfOk result (λ t. HasFlag bank.new t) }
    ensures gains { length bank.new ≤ length bank.old + 10 }
    ensures stay { Stay bank.old bank.new }
{
    let by_nonzero = nonzero(bank, b)?;
    let of_least = equals(bank, a, i32::MIN)?;
    let by_minus_one = equals(bank, b, -1)?;
    let overflows = bank.make_all(&of_least, &by_minus_one)?;
    let fits = bank.make_no(&overflows)?;
    bank.make_all(&by_nonzero, &fits)
}

/// Where `a << b` is defined; `shifted` is its value by the low five bits of `b`.
#[tactic(auto, unfolding(crate::specs::Terms::shift_keeps))]
pub(crate) fn shift_keeps(
    bank: &mut Bank,
    a: &Term,
    b: &Term,
    shifted: &Term,
) -> Result<Term, AllocError>
    requires first { HasWord bank.old a.now }
    requires second { HasWord bank.old b.now }
    requires value { HasWord bank.old shifted.now }
    ensures made { IfOk result (λ t. tree t ≡ shift_keeps (tree a.now) (tree b.now) (tree shifted.now)) }
    ensures has { IfOk result (λ t. HasFlag bank.new t) }
    ensures gains { length bank.new ≤ length bank.old + 13 }
    ensures stay { Stay bank.old bank.new }
{
    let counts = within_width(bank, b)?;
    let below_zero = negative(bank, a)?;
    let from_zero = bank.make_no(&below_zero)?;
    let back = bank.make_word(WordOp::Shr, shifted, b)?;
    let kept = bank.make_test(TestOp::Eq, &back, a)?;
    let keeps = bank.make_all(&from_zero, &kept)?;
    bank.make_all(&counts, &keeps)
}

/// Where a count is from 0 to 31, which is where `a >> count` is defined.
pub(crate) fn within_width(bank: &mut Bank, count: &Term) -> Result<Term, AllocError>
    requires { HasWord bank.old count.now }
    ensures made { IfOk result (λ t. tree t ≡ inside (tree count.now) (word (pos 32))) }
    ensures has { IfOk result (λ t. HasFlag bank.new t) }
    ensures gains { length bank.new ≤ length bank.old + 6 }
    ensures stay { Stay bank.old bank.new }
{
    let width = bank.word(32)?;
    inside(bank, count, &width)
}

/// The value of `a / b`.
#[tactic(auto, unfolding(crate::specs::Terms::quotient))]
pub(crate) fn quotient(bank: &mut Bank, a: &Term, b: &Term) -> Result<Term, AllocError>
    requires first { HasWord bank.old a.now }
    requires second { HasWord bank.old b.now }
    ensures made { IfOk result (λ t. tree t ≡ quotient (tree a.now) (tree b.now)) }
    ensures has { IfOk result (λ t. HasWord bank.new t) }
    ensures gains { length bank.new ≤ length bank.old + 17 }
    ensures stay { Stay bank.old bank.new }
{
    let signs = bank.make_word(WordOp::Xor, a, b)?;
    let apart = negative(bank, &signs)?;
    let dividend = magnitude(bank, a)?;
    let divisor = magnitude(bank, b)?;
    let whole = bank.make_word(WordOp::Quot, &dividend, &divisor)?;
    negated_where(bank, &apart, &whole)
}

/// The value of `a % b`.
#[tactic(auto, unfolding(crate::specs::Terms::remainder))]
pub(crate) fn remainder(bank: &mut Bank, a: &Term, b: &Term) -> Result<Term, AllocError>
    requires first { HasWord bank.old a.now }
    requires second { HasWord bank.old b.now }
    ensures made { IfOk result (λ t. tree t ≡ remainder (tree a.now) (tree b.now)) }
    ensures has { IfOk result (λ t. HasWord bank.new t) }
    ensures gains { length bank.new ≤ length bank.old + 16 }
    ensures stay { Stay bank.old bank.new }
{
    let below_zero = negative(bank, a)?;
    let dividend = magnitude(bank, a)?;
    let divisor = magnitude(bank, b)?;
    let left = bank.make_word(WordOp::Left, &dividend, &divisor)?;
    negated_where(bank, &below_zero, &left)
}
