//! Short forms over the bank's calls: each adds at most so many terms as its clause says, and a refusal leaves the
//! earlier terms.
ghost use Rattle.std.specs.Prelude.{◌≡◌, ◌≤◌, ◌+◌, ◌||◌, ◌&&◌, not, pos, int_lt, IfOk, length};
ghost use Rattle.ax_base.specs.Arithmetic.{truth, is_nonzero};
ghost use Rattle.ax_term.specs.Bank.{HasWord, HasFlag, Stay};
ghost use Rattle.ax_term.specs.Numbered.{tree};
ghost use Rattle.ax_term.specs.Values.{Interpretation, word_under, flag_under};
ghost use Rattle.ax_term_c.specs.Terms.{negative, equals, nonzero, any, number, inside, negated_where, magnitude};

use ax_term::{Bank, Term, TestOp, WordOp};
use std::alloc::AllocError;

/// The flag of `a < 0`.
#[tactic(auto, unfolding(crate::specs::Terms::negative))]
pub(crate) fn negative(bank: &mut Bank, a: &Term) -> Result<Term, AllocError>
    requires { HasWord bank.old a.now }
    ensures made { IfOk result (λ t. tree t ≡ negative (tree a.now)) }
    ensures has { IfOk result (λ t. HasFlag bank.new t) }
    ensures gains { length bank.new ≤ length bank.old + 2 }
    ensures stay { Stay bank.old bank.new }
{
    let zero = bank.word(0)?;
    bank.make_test(TestOp::Lt, a, &zero)
}

/// The flag of `a == number`.
#[tactic(auto, unfolding(crate::specs::Terms::equals))]
pub(crate) fn equals(bank: &mut Bank, a: &Term, number: i32) -> Result<Term, AllocError>
    requires { HasWord bank.old a.now }
    ensures made { IfOk result (λ t. tree t ≡ equals (tree a.now) number) }
    ensures has { IfOk result (λ t. HasFlag bank.new t) }
    ensures gains { length bank.new ≤ length bank.old + 2 }
    ensures stay { Stay bank.old bank.new }
{
    let number = bank.word(number)?;
    bank.make_test(TestOp::Eq, a, &number)
}

/// The flag of `a != 0`.
#[tactic(auto, using(crate::proofs::FormValues::nonzero_value), unfolding(crate::specs::Terms::nonzero))]
pub fn nonzero(bank: &mut Bank, a: &Term) -> Result<Term, AllocError>
    requires { HasWord bank.old a.now }
    ensures made { IfOk result (λ t. tree t ≡ nonzero (tree a.now)) }
    ensures value { (i : Interpretation) → flag_under i (nonzero (tree a.now)) ≡ is_nonzero (word_under i (tree a.now)) }
    ensures has { IfOk result (λ t. HasFlag bank.new t) }
    ensures gains { length bank.new ≤ length bank.old + 3 }
    ensures stay { Stay bank.old bank.new }
{
    let is_zero = equals(bank, a, 0)?;
    bank.make_no(&is_zero)
}

/// The flag that is true where one of two flags is.
#[tactic(auto, using(crate::proofs::FormValues::any_value), unfolding(crate::specs::Terms::any))]
pub fn any(bank: &mut Bank, f: &Term, g: &Term) -> Result<Term, AllocError>
    requires first { HasFlag bank.old f.now }
    requires second { HasFlag bank.old g.now }
    ensures made { IfOk result (λ t. tree t ≡ any (tree f.now) (tree g.now)) }
    ensures value { (i : Interpretation) → flag_under i (any (tree f.now) (tree g.now)) ≡ (flag_under i (tree f.now) || flag_under i (tree g.now)) }
    ensures has { IfOk result (λ t. HasFlag bank.new t) }
    ensures gains { length bank.new ≤ length bank.old + 4 }
    ensures stay { Stay bank.old bank.new }
{
    let no_f = bank.make_no(f)?;
    let no_g = bank.make_no(g)?;
    let neither = bank.make_all(&no_f, &no_g)?;
    bank.make_no(&neither)
}

/// The word that is 1 where the flag is true, and 0 elsewhere.
#[tactic(auto, using(crate::proofs::FormValues::number_value), unfolding(crate::specs::Terms::number))]
pub fn number(bank: &mut Bank, f: &Term) -> Result<Term, AllocError>
    requires { HasFlag bank.old f.now }
    ensures made { IfOk result (λ t. tree t ≡ number (tree f.now)) }
    ensures value { (i : Interpretation) → word_under i (number (tree f.now)) ≡ truth (flag_under i (tree f.now)) }
    ensures has { IfOk result (λ t. HasWord bank.new t) }
    ensures gains { length bank.new ≤ length bank.old + 3 }
    ensures stay { Stay bank.old bank.new }
{
    let one = bank.word(1)?;
    let zero = bank.word(0)?;
    bank.make_pick(f, &one, &zero)
}

/// The flag of `0 <= i && i < n`.
#[tactic(auto, using(crate::proofs::FormValues::inside_value), unfolding(crate::specs::Terms::inside))]
pub fn inside(bank: &mut Bank, i: &Term, n: &Term) -> Result<Term, AllocError>
    requires first { HasWord bank.old i.now }
    requires second { HasWord bank.old n.now }
    ensures made { IfOk result (λ t. tree t ≡ inside (tree i.now) (tree n.now)) }
    ensures value { (v : Interpretation) → flag_under v (inside (tree i.now) (tree n.now)) ≡ (not (int_lt (word_under v (tree i.now)) (pos 0)) && int_lt (word_under v (tree i.now)) (word_under v (tree n.now))) }
    ensures has { IfOk result (λ t. HasFlag bank.new t) }
    ensures gains { length bank.new ≤ length bank.old + 5 }
    ensures stay { Stay bank.old bank.new }
{
    let below_zero = negative(bank, i)?;
    let from_zero = bank.make_no(&below_zero)?;
    let below_n = bank.make_test(TestOp::Lt, i, n)?;
    bank.make_all(&from_zero, &below_n)
}

/// The word that is `0 - a` where the flag is true, and `a` elsewhere.
#[tactic(auto, unfolding(crate::specs::Terms::negated_where))]
pub(crate) fn negated_where(bank: &mut Bank, f: &Term, a: &Term) -> Result<Term, AllocError>
    requires guard { HasFlag bank.old f.now }
    requires operand { HasWord bank.old a.now }
    ensures made { IfOk result (λ t. tree t ≡ negated_where (tree f.now) (tree a.now)) }
    ensures has { IfOk result (λ t. HasWord bank.new t) }
    ensures gains { length bank.new ≤ length bank.old + 3 }
    ensures stay { Stay bank.old bank.new }
{
    let zero = bank.word(0)?;
    let negated = bank.make_word(WordOp::Sub, &zero, a)?;
    bank.make_pick(f, &negated, a)
}

/// The word of the absolute value of `a`, without sign.
#[tactic(auto, unfolding(crate::specs::Terms::magnitude))]
pub(crate) fn magnitude(bank: &mut Bank, a: &Term) -> Result<Term, AllocError>
    requires { HasWord bank.old a.now }
    ensures made { IfOk result (λ t. tree t ≡ magnitude (tree a.now)) }
    ensures has { IfOk result (λ t. HasWord bank.new t) }
    ensures gains { length bank.new ≤ length bank.old + 5 }
    ensures stay { Stay bank.old bank.new }
{
    let below_zero = negative(bank, a)?;
    negated_where(bank, &below_zero, a)
}
