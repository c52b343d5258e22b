//! Assignments.

ghost use Rattle.std.specs.Prelude.{◌≡◌, ◌≤◌, length};
ghost use Rattle.ax_proof.specs.Assignment.{assigned, lit_value};

use crate::literal::Lit;

/// A truth value for each variable from 1 to some number, in order.
#[derive(Drop, Debug)]
pub struct Assignment {
    pub bits: Vec<bool>,
}

impl Assignment {
    /// The value of the literal.
    pub fn value(&self, lit: Lit) -> bool
        requires { lit.var ≤ length self.now.bits.items }
        ensures { result ≡ lit_value (assigned self.now.bits.items) lit }
    {
        let bit = self.bits[lit.var() as usize - 1];
        if lit.positive() { bit } else { !bit }
    }
}
