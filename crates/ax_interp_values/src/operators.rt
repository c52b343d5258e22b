//! What an operator gives for the values of its operands (C11 6.5.3.3 and 6.5.5 to 6.5.15).
ghost use Rattle.std.specs.Prelude.{◌≡◌, ℤ, IfSome};
ghost use Rattle.ax_base.specs.Arithmetic.{truth as truth_is, is_nonzero};
ghost use Rattle.ax_meaning.specs.Answer.{Answer, value_or, with_value};
ghost use Rattle.ax_meaning.specs.Operators.{unary_value, strict_value, truth_value, value_after, binary_value, choice_value};
ghost use Rattle.ax_interp_values.specs.Choices.{chosen};

use ax_meaning::Why;
use ax_prog::{Bin, Un};

/// 1 for true and 0 for false.
pub fn truth(b: bool) -> i32
    ensures { result ≡ truth_is b }
{
    if b { 1 } else { 0 }
}

/// Whether a number counts as true.
pub fn holds(n: i32) -> bool
    ensures { result ≡ is_nonzero n }
{
    n != 0
}

fn known(answer: Option<i32>, why: Why) -> Result<i32, Why>
    ensures { result ≡ value_or answer why }
{
    match answer {
        Some(n) => Ok(n),
        None => Err(why),
    }
}

fn unary(op: Un, a: i32) -> Result<i32, Why>
    ensures { result ≡ unary_value op a }
{
    match op {
        Un::Neg => known(ax_base::neg(a), Why::Overflow),
        Un::Not => Ok(truth(a == 0)),
        Un::BitNot => Ok(ax_base::bit_not(a)),
    }
}

/// What an operator gives that needs both its operands.
pub fn strict(op: Bin, a: i32, b: i32) -> Result<i32, Why>
    ensures { result ≡ strict_value op a b }
{
    match op {
        Bin::Eq => Ok(truth(a == b)),
        Bin::Ne => Ok(truth(a != b)),
        Bin::Lt => Ok(truth(a < b)),
        Bin::Le => Ok(truth(a <= b)),
        Bin::Gt => Ok(truth(b < a)),
        Bin::Ge => Ok(truth(b <= a)),
        Bin::And => Ok(truth(b != 0)),
        Bin::Or => Ok(truth(b != 0)),
        Bin::Add => known(ax_base::add(a, b), Why::Overflow),
        Bin::Sub => known(ax_base::sub(a, b), Why::Overflow),
        Bin::Mul => known(ax_base::mul(a, b), Why::Overflow),
        Bin::Div => known(ax_base::div(a, b), Why::Division),
        Bin::Rem => known(ax_base::rem(a, b), Why::Division),
        Bin::BitAnd => Ok(a & b),
        Bin::BitOr => Ok(a | b),
        Bin::BitXor => Ok(a ^ b),
        Bin::Shl => known(ax_base::shl(a, b), Why::Shift),
        Bin::Shr => known(ax_base::shr(a, b), Why::Shift),
    }
}

fn truth_on(answer: Result<i32, Why>) -> Result<i32, Why>
    ensures { result ≡ truth_value answer }
{
    match answer {
        Ok(n) => Ok(truth(n != 0)),
        Err(why) => Err(why),
    }
}

/// A unary operator on its operand's value.
pub fn unary_on(op: Un, a: Result<i32, Why>) -> Result<i32, Why>
    ensures { result ≡ with_value (unary_value op) a }
{
    match a {
        Err(why) => Err(why),
        Ok(n) => unary(op, n),
    }
}

fn after(op: Bin, m: i32, b: Result<i32, Why>) -> Result<i32, Why>
    ensures { result ≡ value_after op m b }
{
    match op {
        Bin::And => { if holds(m) { truth_on(b) } else { Ok(0) } }
        Bin::Or => { if holds(m) { Ok(1) } else { truth_on(b) } }
        Bin::Eq
        | Bin::Ne
        | Bin::Lt
        | Bin::Le
        | Bin::Gt
        | Bin::Ge
        | Bin::Add
        | Bin::Sub
        | Bin::Mul
        | Bin::Div
        | Bin::Rem
        | Bin::BitAnd
        | Bin::BitOr
        | Bin::BitXor
        | Bin::Shl
        | Bin::Shr => match b {
            Err(why) => Err(why),
            Ok(n) => strict(op, m, n),
        },
    }
}

/// A binary operator on its operands' values.
pub fn binary_on(op: Bin, a: Result<i32, Why>, b: Result<i32, Why>) -> Result<i32, Why>
    ensures { result ≡ binary_value op a b }
{
    match a {
        Err(why) => Err(why),
        Ok(m) => after(op, m, b),
    }
}

/// The value of the whole where the left operand alone settles it: its cause, a false one of `&&`, a true one of `||`.
pub fn settled(op: Bin, a: Result<i32, Why>) -> Option<Result<i32, Why>>
    ensures { (b : Answer ℤ) → IfSome result (λ all. all ≡ binary_value op a b) }
{
    match a {
        Err(why) => Some(Err(why)),
        Ok(m) => match op {
            Bin::And => { if holds(m) { None } else { Some(Ok(0)) } }
            Bin::Or => { if holds(m) { Some(Ok(1)) } else { None } }
            _ => None,
        },
    }
}

/// Which of its two other operands a `?:` needs: the second for `true`.
pub fn choice(first: Result<i32, Why>) -> Result<bool, Why>
    ensures { (a : Answer ℤ) → (b : Answer ℤ) → chosen result a b ≡ choice_value first a b }
{
    match first {
        Err(why) => Err(why),
        Ok(n) => Ok(holds(n)),
    }
}
