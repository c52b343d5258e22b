//! Worked examples of terms, and of the order in which they stand.

ghost use Rattle.std.specs.Prelude.{◌≡◌, IfOk};
ghost use Rattle.ax_term.specs.Bank.{Among, HasFlag, HasWord, Stay};
ghost use Rattle.ax_term.specs.Order.{AllAmong};

use ax_term::{Bank, Term, TestOp, Valuation, WordOp, order, value};
use std::alloc::AllocError;
use std::collections::BTreeMap;
use std::test::Fail;

#[test]
fn operators(rt: HostRuntime) {
    let rows = [
        (WordOp::Add, i32::MAX, 1, i32::MIN),
        (WordOp::Sub, i32::MIN, 1, i32::MAX),
        (WordOp::Mul, 65536, 65536, 0),
        (WordOp::High, i32::MIN, i32::MIN, 1073741824),
        (WordOp::High, -1, 1, -1),
        (WordOp::Quot, -1, 2, i32::MAX),
        (WordOp::Quot, 7, 0, -1),
        (WordOp::Left, -1, 10, 5),
        (WordOp::Left, 7, 0, 7),
        (WordOp::Shl, 3, 33, 6),
        (WordOp::Shr, -8, 33, -4),
        (WordOp::And, 12, 10, 8),
        (WordOp::Or, 12, 10, 14),
        (WordOp::Xor, 12, -1, -13),
    ];
    for (op, a, b, expected) in rows {
        assert_eq!(rt; op.apply(a, b), expected);
    }
    assert!(rt; TestOp::Lt.apply(-1, 0));
    assert!(rt; !TestOp::Eq.apply(-1, 0));
}

/// The sum of two constants, where it is a constant.
fn sum_of(bank: &mut Bank, a: i32, b: i32) -> Result<Option<i32>, AllocError> {
    let first = bank.word(a)?;
    let second = bank.word(b)?;
    Ok(bank.make_word(WordOp::Add, &first, &second)?.constant())
}

/// The numbers of `f ? a : a` and of `a`.
fn choice_and_word(bank: &mut Bank) -> Result<(usize, usize), AllocError> {
    let f = bank.flag_sym(0)?;
    let a = bank.word_sym(0)?;
    Ok((bank.make_pick(&f, &a, &a)?.number(), a.number()))
}

/// The number of `1 * a`.
fn product(bank: &mut Bank) -> Result<usize, AllocError> {
    let one = bank.word(1)?;
    let a = bank.word_sym(0)?;
    Ok(bank.make_word(WordOp::Mul, &one, &a)?.number())
}

/// The truth of `a < a`, where it is a constant.
fn less_than_itself(bank: &mut Bank) -> Result<Option<bool>, AllocError> {
    let a = bank.word_sym(0)?;
    Ok(bank.make_test(TestOp::Lt, &a, &a)?.truth())
}

/// The truth of `f && !f`, where it is a constant.
fn with_its_denial(bank: &mut Bank) -> Result<Option<bool>, AllocError> {
    let f = bank.flag_sym(0)?;
    let denied = bank.make_no(&f)?;
    Ok(bank.make_all(&f, &denied)?.truth())
}

/// Terms of constants, `f ? a : a` and `a < a` fold, and so does `f && !f`; a term that is made again is the same one.
#[test]
fn folding(rt: HostRuntime) -> Result<(), Fail> {
    let mut bank = Bank::new(rt.alloc());
    assert_eq!(rt; sum_of(&mut bank, 2, 3)?, Some(5));
    assert_eq!(rt; choice_and_word(&mut bank)?, (4, 4));
    assert_eq!(rt; product(&mut bank)?, 6);
    assert_eq!(rt; product(&mut bank)?, 6);
    assert_eq!(rt; less_than_itself(&mut bank)?, Some(false));
    assert_eq!(rt; bank.flag(false)?.number(), 7);
    assert_eq!(rt; with_its_denial(&mut bank)?, Some(false));
    assert_eq!(rt; bank.len(), 9);
    Ok(())
}

#[test]
fn values(rt: HostRuntime) -> Result<(), Fail> {
    let mut words = BTreeMap::new(rt.alloc());
    words.insert(0, i32::MAX)?;
    let valuation = Valuation {
        words,
        flags: BTreeMap::new(rt.alloc()),
    };
    let mut bank = Bank::new(rt.alloc());
    let a = bank.word_sym(0)?;
    let one = bank.word(1)?;
    let sum = bank.make_word(WordOp::Add, &a, &one)?;
    assert_eq!(rt; value(rt.alloc(), &bank, &sum, &valuation)?, i32::MIN);
    let f = bank.flag_sym(0)?;
    let denied = bank.make_no(&f)?;
    assert_eq!(rt; value(rt.alloc(), &bank, &denied, &valuation)?, 1);
    Ok(())
}

/// The term with itself, so many times: a tree without sharing would double each time.
pub fn doubled(bank: &mut Bank, x: &Term, times: u32) -> Result<Term, AllocError>
    requires { HasWord bank.old x.now }
    ensures top { IfOk result (λ t. HasWord bank.new t) }
{
    let mut top = x.clone()?;
    for _ in 0..times {
        top = bank.make_word(WordOp::And, &top, &top)?;
    }
    Ok(top)
}

/// A chain that a drop by recursion couldn't end in this stack.
#[test]
fn long_chain(rt: HostRuntime) -> Result<(), Fail> {
    let mut bank = Bank::new(rt.alloc());
    let x = bank.word_sym(0)?;
    let _top = doubled(&mut bank, &x, 1_000_000)?;
    assert_eq!(rt; bank.len(), 1_000_001);
    Ok(())
}

/// Of `Eq(Add(Add(x, y), x), Add(x, y))` the inner sum and `x` come once. The bank made `y` first, and a word that isn't
/// used.
#[test]
fn a_shared_subterm_comes_once(rt: HostRuntime) -> Result<(), Fail> {
    let mut bank = Bank::new(rt.alloc());
    let y = bank.word_sym(1)?;
    let x = bank.word_sym(0)?;
    let _unused = bank.word_sym(2)?;
    let inner = bank.make_word(WordOp::Add, &x, &y)?;
    let outer = bank.make_word(WordOp::Add, &inner, &x)?;
    let test = bank.make_test(TestOp::Eq, &outer, &inner)?;
    let asserted = vec![in rt.alloc(); test]?;
    let found = order(rt.alloc(), &bank, &asserted, &[])?;
    assert_eq!(rt; found.as_slice(), [1, 0, 3, 4, 5].as_slice());
    Ok(())
}
