//! How deeply the tokens of a source nest, and where they first nest too deeply.
//! Calls that stand inside expressions: the first one of a source.
//! Expressions that are too large: the first one of a source.
#![tactic(auto)]

mod call_expressions;
mod calls;
mod classes;
mod counts;
mod nesting;
mod scan;

pub use calls::call_inside;
pub use nesting::{Class, State, too_deep};
pub use scan::too_large;
