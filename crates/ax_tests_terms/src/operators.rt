//! Operators of C, at word symbols that take the operands' values.
ghost use Rattle.std.specs.Prelude.{◌≡◌, IfOk};
ghost use Rattle.ax_term.specs.Bank.{Stay};
ghost use Rattle.ax_term_c.specs.Meaning.{HasBoth};

use ax_prog::{Bin, Un};
use ax_term::{Bank, Valuation, value};
use ax_term_c::{Known, any, binary, choose, inside, nonzero, number, unary};
use std::alloc::{AllocError, Global};
use std::collections::BTreeMap;
use std::test::Fail;

const LEAST: i32 = -2147483648;

const GREATEST: i32 = 2147483647;

/// The operand of that number: a word symbol, defined where a flag symbol is true.
fn operand(bank: &mut Bank, k: u32) -> Result<Known, AllocError>
    ensures has { IfOk result (λ known. HasBoth bank.new known) }
    ensures stay { Stay bank.old bank.new }
{
    let value = bank.word_sym(k)?;
    let defined = bank.flag_sym(k)?;
    Ok(Known { value, defined })
}

/// The values of operands 0 to 2; `None` leaves an operand undefined.
fn valuation(alloc: Global, numbers: [Option<i32>; 3]) -> Result<Valuation, AllocError> {
    let mut valuation = Valuation {
        words: BTreeMap::new(alloc),
        flags: BTreeMap::new(alloc),
    };
    for (k, number) in numbers.into_iter().enumerate() {
        if let Some(number) = number {
            valuation.words.insert(k as u32, number)?;
            valuation.flags.insert(k as u32, true)?;
        }
    }
    Ok(valuation)
}

/// What the terms mean at these values of the operands.
fn meaning(
    alloc: Global,
    bank: &Bank,
    known: &Known,
    numbers: [Option<i32>; 3],
) -> Result<Option<i32>, AllocError>
    requires { HasBoth bank.now known.now }
{
    let valuation = valuation(alloc, numbers)?;
    if value(alloc, bank, &known.defined, &valuation)? == 1 {
        Ok(Some(value(alloc, bank, &known.value, &valuation)?))
    } else {
        Ok(None)
    }
}

fn unary_at_numbers(alloc: Global, op: Un, a: Option<i32>) -> Result<Option<i32>, AllocError> {
    let mut bank = Bank::new(alloc);
    let first = operand(&mut bank, 0)?;
    let known = unary(&mut bank, op, &first)?;
    meaning(alloc, &bank, &known, [a, None, None])
}

fn binary_at_numbers(
    alloc: Global,
    op: Bin,
    a: Option<i32>,
    b: Option<i32>,
) -> Result<Option<i32>, AllocError> {
    let mut bank = Bank::new(alloc);
    let first = operand(&mut bank, 0)?;
    let second = operand(&mut bank, 1)?;
    let known = binary(&mut bank, op, &first, &second)?;
    meaning(alloc, &bank, &known, [a, b, None])
}

fn choice_at_numbers(
    alloc: Global,
    f: Option<i32>,
    a: Option<i32>,
    b: Option<i32>,
) -> Result<Option<i32>, AllocError> {
    let mut bank = Bank::new(alloc);
    let guard = operand(&mut bank, 0)?;
    let first = operand(&mut bank, 1)?;
    let second = operand(&mut bank, 2)?;
    let known = choose(&mut bank, &guard, &first, &second)?;
    meaning(alloc, &bank, &known, [f, a, b])
}

/// Arithmetic, shifts, bits and comparisons as C has them. An operand `None` is undefined, as `1 / 0` is, and only needed operands count.
type Row = (Bin, Option<i32>, Option<i32>, Option<i32>);

const BINARY: [Row; 56] = [
    (Bin::Add, Some(GREATEST), Some(1), None),
    (Bin::Add, Some(GREATEST), Some(LEAST), Some(-1)),
    (Bin::Add, Some(LEAST), Some(-1), None),
    (Bin::Sub, Some(LEAST), Some(1), None),
    (Bin::Sub, Some(0), Some(LEAST), None),
    (Bin::Sub, Some(-1), Some(LEAST), Some(GREATEST)),
    (Bin::Mul, Some(65536), Some(32768), None),
    (Bin::Mul, Some(65536), Some(-32768), Some(LEAST)),
    (Bin::Mul, Some(LEAST), Some(-1), None),
    (Bin::Mul, Some(-3), Some(5), Some(-15)),
    (Bin::Div, Some(1), Some(0), None),
    (Bin::Div, Some(LEAST), Some(-1), None),
    (Bin::Div, Some(LEAST), Some(1), Some(LEAST)),
    (Bin::Div, Some(-7), Some(2), Some(-3)),
    (Bin::Div, Some(7), Some(-2), Some(-3)),
    (Bin::Rem, Some(1), Some(0), None),
    (Bin::Rem, Some(LEAST), Some(-1), None),
    (Bin::Rem, Some(-7), Some(2), Some(-1)),
    (Bin::Rem, Some(7), Some(-2), Some(1)),
    (Bin::Shl, Some(1), Some(30), Some(1073741824)),
    (Bin::Shl, Some(1), Some(31), None),
    (Bin::Shl, Some(0), Some(31), Some(0)),
    (Bin::Shl, Some(0), Some(32), None),
    (Bin::Shl, Some(1), Some(-1), None),
    (Bin::Shl, Some(-1), Some(0), None),
    (Bin::Shr, Some(-5), Some(1), Some(-3)),
    (Bin::Shr, Some(GREATEST), Some(31), Some(0)),
    (Bin::Shr, Some(1), Some(32), None),
    (Bin::Shr, Some(1), Some(-1), None),
    (Bin::BitAnd, Some(12), Some(10), Some(8)),
    (Bin::BitOr, Some(12), Some(10), Some(14)),
    (Bin::BitXor, Some(12), Some(-1), Some(-13)),
    (Bin::Lt, Some(LEAST), Some(GREATEST), Some(1)),
    (Bin::Lt, Some(0), Some(0), Some(0)),
    (Bin::Le, Some(0), Some(0), Some(1)),
    (Bin::Le, Some(1), Some(0), Some(0)),
    (Bin::Gt, Some(-1), Some(0), Some(0)),
    (Bin::Gt, Some(1), Some(-1), Some(1)),
    (Bin::Ge, Some(-1), Some(0), Some(0)),
    (Bin::Ge, Some(3), Some(3), Some(1)),
    (Bin::Eq, Some(5), Some(5), Some(1)),
    (Bin::Eq, Some(5), Some(-5), Some(0)),
    (Bin::Ne, Some(5), Some(5), Some(0)),
    (Bin::Ne, Some(5), Some(-5), Some(1)),
    (Bin::And, Some(0), None, Some(0)),
    (Bin::And, None, Some(0), None),
    (Bin::And, Some(2), Some(4), Some(1)),
    (Bin::And, Some(2), Some(0), Some(0)),
    (Bin::And, Some(2), None, None),
    (Bin::Or, Some(-1), None, Some(1)),
    (Bin::Or, None, Some(1), None),
    (Bin::Or, Some(0), Some(3), Some(1)),
    (Bin::Or, Some(0), Some(0), Some(0)),
    (Bin::Or, Some(0), None, None),
    (Bin::Add, Some(1), None, None),
    (Bin::Lt, None, Some(1), None),
];

/// The first of these rows whose operator means something else.
fn other_meaning(alloc: Global, rows: &[Row]) -> Result<Option<Row>, AllocError> {
    for row in rows {
        let (op, a, b, wanted) = *row;
        if binary_at_numbers(alloc, op, a, b)? != wanted {
            return Ok(Some(*row));
        }
    }
    Ok(None)
}

#[test]
fn binary_as_c_does(rt: HostRuntime) -> Result<(), Fail> {
    assert_eq!(rt; other_meaning(rt.alloc(), &BINARY)?, None);
    Ok(())
}

#[test]
fn unary_as_c_does(rt: HostRuntime) -> Result<(), Fail> {
    let rows = [
        (Un::Neg, Some(LEAST), None),
        (Un::Neg, Some(GREATEST), Some(-2147483647)),
        (Un::Neg, None, None),
        (Un::Not, Some(0), Some(1)),
        (Un::Not, Some(5), Some(0)),
        (Un::BitNot, Some(0), Some(-1)),
        (Un::BitNot, Some(LEAST), Some(GREATEST)),
    ];
    for (op, a, wanted) in rows {
        assert_eq!(rt; unary_at_numbers(rt.alloc(), op, a)?, wanted);
    }
    Ok(())
}

#[test]
fn choices_as_c_does(rt: HostRuntime) -> Result<(), Fail> {
    let rows = [
        (Some(3), Some(5), Some(6), Some(5)),
        (Some(0), Some(5), Some(6), Some(6)),
        (Some(1), Some(5), None, Some(5)),
        (Some(0), None, Some(6), Some(6)),
        (Some(0), Some(5), None, None),
        (Some(1), None, Some(6), None),
        (None, Some(5), Some(6), None),
    ];
    for (f, a, b, wanted) in rows {
        assert_eq!(rt; choice_at_numbers(rt.alloc(), f, a, b)?, wanted);
    }
    Ok(())
}

/// `0 && (1 / 0)`: at constants the terms are constants.
#[test]
fn constants_fold(rt: HostRuntime) -> Result<(), Fail> {
    let mut bank = Bank::new(rt.alloc());
    let (zero, one) = (bank.word(0)?, bank.word(1)?);
    let (always, same) = (bank.flag(true)?, bank.flag(true)?);
    let a = Known {
        value: zero,
        defined: always,
    };
    let b = Known {
        value: one,
        defined: same,
    };
    let quotient = binary(&mut bank, Bin::Div, &b, &a)?;
    assert_eq!(rt; quotient.defined.truth(), Some(false));
    let known = binary(&mut bank, Bin::And, &a, &quotient)?;
    assert_eq!(rt; known.value.constant(), Some(0));
    assert_eq!(rt; known.defined.truth(), Some(true));
    Ok(())
}

#[test]
fn short_forms(rt: HostRuntime) -> Result<(), Fail> {
    let mut bank = Bank::new(rt.alloc());
    let (three, four) = (bank.word(3)?, bank.word(4)?);
    let yes = inside(&mut bank, &three, &four)?;
    assert_eq!(rt; yes.truth(), Some(true));
    let no = inside(&mut bank, &four, &four)?;
    assert_eq!(rt; any(&mut bank, &no, &yes)?.truth(), Some(true));
    assert_eq!(rt; number(&mut bank, &yes)?.constant(), Some(1));
    assert_eq!(rt; nonzero(&mut bank, &three)?.truth(), Some(true));
    Ok(())
}
