//! Literals held to be true, in memory that grows with their number alone.

ghost use Rattle.std.specs.Prelude.{◌≡◌, ◌++◌, ◌∷◌, [], OnOk};
ghost use Rattle.ax_proof.specs.Trail.{IsOpen, Says};

use crate::literal::Lit;
use crate::trail::Truth;
use indexmap::IndexSet;
use std::alloc::{AllocError, Global};
use std::marker::Model;

/// Literals in the order in which they became true, none with its negation. No table by variable stands behind it.
#[derive(Drop)]
pub struct Known {
    codes: IndexSet<u64>,
}

impl Model for Known {
    ghost use Rattle.std.specs.Prelude.{List, map};
    ghost use Rattle.ax_proof.specs.Literal.{Literal, literal_of};
    ghost use Rattle.ax_proof.specs.Trail.{IsConsistent};

    ghost Value = { List Literal };

    ghost view = { λ k. map literal_of k.codes.keys };

    ghost invariant = { λ k. IsConsistent (map literal_of k.codes.keys) };
}

impl Known {
    /// No literal.
    pub fn new(alloc: Global) -> Known
        ensures { result ≡ [] }
    {
        Known {
            codes: IndexSet::new(alloc),
        }
    }

    /// What is known of the literal.
    pub fn truth(&self, lit: Lit) -> Truth
        ensures { Says self.now lit result }
    {
        if self.codes.contains(&lit.code()) {
            return Truth::True;
        }
        if self.codes.contains(&lit.negate().code()) {
            return Truth::False;
        }
        Truth::Open
    }

    /// Makes an open literal true.
    pub fn push(&mut self, lit: Lit) -> Result<(), AllocError>
        requires { IsOpen self.old lit }
        ensures { OnOk result (self.new ≡ self.old ++ lit ∷ []) }
    {
        self.codes.insert(lit.code())?;
        Ok(())
    }

    /// Takes all literals off.
    pub fn clear(&mut self)
        ensures { self.new ≡ [] }
    {
        self.codes.clear();
    }
}
