//! Literals.

ghost use Rattle.std.specs.Prelude.{◌≡◌, ◌^◌, ◌<◌, ◌≤◌};
ghost use Rattle.ax_proof.specs.Literal.{literal, negation, code_of};

use std::marker::Model;

/// A variable, numbered from 1, or its negation. Literals are ordered by variable, and then the variable comes before its
/// negation.
#[derive(Clone, Copy, PartialEq, Eq, PartialOrd, Ord, Debug)]
pub struct Lit {
    code: u64,
}

impl Model for Lit {
    ghost use Rattle.std.specs.Prelude.{◌≤◌};
    ghost use Rattle.ax_proof.specs.Literal.{Literal, literal_of, code_of};

    ghost Value = { Literal };

    ghost view = { λ a. literal_of a.code };

    ghost invariant = { λ a. 2 ≤ a.code };

    ghost inverse = { λ l. record { code = code_of l } };
}

/// The literal 1, for lists that want some literal to fill them.
impl Default for Lit {
    fn default() -> Lit {
        Lit { code: 2 }
    }
}

impl Lit {
    /// The variable itself where `positive`, else its negation.
    pub fn new(var: u64, positive: bool) -> Lit
        requires low { 1 ≤ var }
        requires high { var < 2 ^ 63 }
        ensures { result ≡ literal var positive }
    {
        Lit {
            code: if positive { 2 * var } else { 2 * var + 1 },
        }
    }

    /// The variable.
    pub fn var(self) -> u64
        ensures value { result ≡ self.var }
        ensures low { 1 ≤ result }
        ensures high { result < 2 ^ 63 }
    {
        self.code / 2
    }

    /// Whether it is the variable itself.
    pub fn positive(self) -> bool
        ensures { result ≡ self.positive }
    {
        self.code % 2 == 0
    }

    /// The literal of the other sign.
    pub fn negate(self) -> Lit
        ensures { result ≡ negation self }
    {
        Lit {
            code: self.code ^ 1,
        }
    }

    /// A number that tells literals apart: twice the variable, and one more where it is negated.
    pub fn code(self) -> u64
        ensures value { result ≡ code_of self }
        ensures low { 2 ≤ result }
    {
        self.code
    }
}
