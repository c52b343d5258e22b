//! Arithmetic of C's `int`, of 32 bits in two's complement: each operator answers `None` exactly where
//! C11 6.5p5 and 6.5.3 to 6.5.7 leave its result undefined.
//!
//! The relational, equality and logical operators (6.5.8, 6.5.9, 6.5.13 to 6.5.15) and the bitwise ones
//! (6.5.10 to 6.5.12) are defined everywhere and are Rust's own.
#![tactic(auto)]

pub mod gather;

ghost use Rattle.std.specs.Prelude.{◌≡◌};
ghost use Rattle.ax_base.specs.Arithmetic.{plus_of, minus_of, times_of, negative_of, quotient_of, remainder_of, shift_left_of, shift_right_of, complement_of};

/// `a + b` (C11 6.5.6). `None` where the sum is no `int` (6.5p5).
pub fn add(a: i32, b: i32) -> Option<i32>
    ensures { result ≡ plus_of a b }
{
    a.checked_add(b)
}

/// `a - b` (C11 6.5.6). `None` where the difference is no `int` (6.5p5).
pub fn sub(a: i32, b: i32) -> Option<i32>
    ensures { result ≡ minus_of a b }
{
    a.checked_sub(b)
}

/// `a * b` (C11 6.5.5). `None` where the product is no `int` (6.5p5).
pub fn mul(a: i32, b: i32) -> Option<i32>
    ensures { result ≡ times_of a b }
{
    a.checked_mul(b)
}

/// `-a` (C11 6.5.3.3). `None` for the least `int` alone (6.5p5).
pub fn neg(a: i32) -> Option<i32>
    ensures { result ≡ negative_of a }
{
    a.checked_neg()
}

/// `a / b`, rounded toward zero (C11 6.5.5p5, p6). `None` where `b` is 0, and where the quotient is no `int`,
/// which is the least `int` divided by -1.
pub fn div(a: i32, b: i32) -> Option<i32>
    ensures { result ≡ quotient_of a b }
{
    a.checked_div(b)
}

/// `a % b`, with the sign of `a` (C11 6.5.5p5, p6). `None` exactly where `a / b` is undefined.
pub fn rem(a: i32, b: i32) -> Option<i32>
    ensures { result ≡ remainder_of a b }
{
    a.checked_rem(b)
}

/// `a << b` (C11 6.5.7p3, p4). `None` where `b` is negative or at least 32, where `a` is negative, and where
/// `a * 2^b` is no `int`.
pub fn shl(a: i32, b: i32) -> Option<i32>
    ensures { result ≡ shift_left_of a b }
{
    if a < 0 || b < 0 || b >= 32 {
        return None;
    }
    let word = a as u32;
    let count = b as u32;
    if word <= 2147483647 >> count {
        Some((word << count) as i32)
    } else {
        None
    }
}

/// `a >> b` (C11 6.5.7p3, p5). `None` where `b` is negative or at least 32. Of a negative `a`, where C11 leaves
/// the choice to the implementation, this is the arithmetic shift.
pub fn shr(a: i32, b: i32) -> Option<i32>
    ensures { result ≡ shift_right_of a b }
{
    if b < 0 || b >= 32 {
        return None;
    }
    Some(a >> b)
}

/// `~a` (C11 6.5.3.3), which is `-a - 1` in two's complement and always defined.
pub fn bit_not(a: i32) -> i32
    ensures { result ≡ complement_of a }
{
    !a
}
