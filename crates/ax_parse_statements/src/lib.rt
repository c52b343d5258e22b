//! Reading declarations: the tree that the tokens from a place on begin with, and the place behind it.
//! Reading heads of functions and definitions of structs: the tree that the tokens from a place on begin with, and the place
//! behind it.
//! Reading simple statements, what stands in the parentheses of statements, and statements that hold no statement: the tree
//! that the tokens from a place on begin with, and the place behind it.
//! Reading what stands in the parentheses of a `for`, and `printf`: the tree that the tokens from a place on begin with, and the
//! place behind it.
//! Reading statements: the tree that the tokens from a place on begin with, and the place behind it.
#![tactic(auto)]

mod declared;
pub mod for_headers;
pub mod headers;
mod heads;
pub mod lists;
pub mod parts;
pub mod plain;
pub mod prints;
pub mod simples;
mod statement_parts;
mod statements;
mod structs;
pub mod terminals;

pub use declared::decl;
pub use heads::head;
pub use statements::{items, statement};
pub use structs::{struct_at, struct_body};
