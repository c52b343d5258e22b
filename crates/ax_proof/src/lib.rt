//! Clauses, the check of their proofs, and the clauses that each line of a proof uses.
#![tactic(auto)]

pub mod assignment;
pub mod clause;
pub mod denied;
pub mod known;
pub mod laws;
pub mod lines;
pub mod literal;
pub mod naming;
pub mod propagation;
pub mod right;
pub mod shown;
pub mod steps;
pub mod trail;
pub mod uses;

pub use assignment::Assignment;
pub use clause::{Clause, Cnf, Line};
pub use denied::Denied;
pub use lines::{BadLine, check_lines, ends_empty};
pub use literal::Lit;
pub use right::{BadUse, check_right, check_uses};
pub use shown::{Both, Shown};
pub use steps::Steps;
pub use uses::find_uses;
