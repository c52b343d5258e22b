//! The types that a source declares: of variables, members of structs and heads of functions, or the first rule that is
//! broken.
//!
//! The definitions stand in `specs/`: `Denotations` says what a base and a declarator denote, `Breaks` which rules they
//! break and where, and `Exact` that an answer is what is denoted, or the first break where there is one.
#![tactic(auto)]

ghost use Rattle.std.specs.Prelude.{◌≡◌, ℕ, Bool, List};
ghost use Rattle.ax_prog.specs.declared.Ty.{Ty};
ghost use Rattle.ax_prog.specs.declared.Struct.{Struct};
ghost use Rattle.ax_parse_grammar.specs.declared.tree.Base.{Base};
ghost use Rattle.ax_parse_grammar.specs.declared.tree.Head as top;
ghost use Rattle.ax_parse_grammar.specs.declared.tree.Members as inner;
ghost use Rattle.ax_parse_grammar.specs.declared.tree.Name as word;
ghost use Rattle.ax_parse_grammar.specs.declared.tree.Size.{Size};
ghost use Rattle.ax_names_declared.specs.declared.heads.Signature as said;
ghost use Rattle.ax_names_declared.specs.Breaks.{DeclaresObject};
ghost use Rattle.ax_names_declared.specs.Structs.{Defines};
ghost use Rattle.ax_names_declared.specs.Heads.{DeclaresFunction};

mod agreement;
mod bases;
mod cells;
mod declarators;
mod firsts;
mod heads;
mod objects;
mod structs;

pub use agreement::{Known, agrees, same_types};
pub use cells::add_struct;
pub use declarators::filled;
pub use heads::{Signature, signature_of};
pub use objects::object_type;
pub use structs::struct_type;

/// A declaration of a variable declares one type at most, a definition defines one struct, and a head declares one
/// function (a law).
pub fn one_type()
    ensures variable { (structs : List Struct) (base : Base) (stars : ℕ) (sizes : List Size) (u v : Ty) → DeclaresObject structs base stars sizes u → DeclaresObject structs base stars sizes v → u ≡ v }
    ensures definition { (structs : List Struct) (x : word.Name) (list : List inner.Members) (s t : Struct) → Defines structs x list s → Defines structs x list t → s ≡ t }
    ensures function { (structs : List Struct) (defined : Bool) (h : top.Head) (s t : said.Signature) → DeclaresFunction structs defined h s → DeclaresFunction structs defined h t → s ≡ t }
{}
