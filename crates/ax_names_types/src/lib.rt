//! Types: what an expression of the whole grammar means in a scope, or the first type rule that it breaks.
//!
//! The definitions stand in `specs/`: `Means` says what an expression means, `Breaks` which rules it breaks and where, and
//! `Exact` that an answer is the meaning, or the first break where there is none. This file has the laws about them.
#![tactic(auto)]

ghost use Rattle.std.specs.Prelude.{◌≡◌, ◌⊎◌};
ghost use Rattle.ax_parse_grammar.specs.declared.tree.Expr.{Expr as Tree};
ghost use Rattle.ax_names_types.specs.declared.Typed.{Typed};
ghost use Rattle.ax_names_types.specs.declared.TypeFault.{TypeFault};
ghost use Rattle.ax_names_types.specs.Scopes.{Env};
ghost use Rattle.ax_names_types.specs.Meaning.{Means};
ghost use Rattle.ax_names_types.specs.Breaks.{Breaks, Exact};
ghost use Rattle.ax_names_types.specs.Verdicts.{verdict_of};
ghost use Rattle.ax_names_types.specs.Types.{value_of};
ghost use Rattle.ax_names_types.specs.Atoms.{CarriesItsAtoms};
ghost use Rattle.ax_prog.specs.declared.Span as at;

pub mod faults;
pub mod scopes;
pub mod types;

use ax_prog::{Atom, Expr, Lval, Pexpr, Span, Ty, VarId};
use sqlite_items::Items;

/// The kinds of faults, in the order in which they count at one place.
#[derive(Clone, Copy, PartialEq, Eq, Debug)]
pub enum TypeKind {
    UnknownName,
    Redeclared,
    WrongType,
    NotLvalue,
    WrongCount,
    NoMain,
    MissingField,
    RecursiveStruct,
    TooLarge,
    Misplaced,
}

/// A type rule that is broken, and where.
#[derive(Clone, Copy, PartialEq, Eq, Debug)]
pub struct TypeFault {
    pub kind: TypeKind,
    pub span: Span,
}

/// What a name denotes (C11 6.2.1): a variable with its type, or a function, by its place among the functions that
/// the file declares, from 0.
#[derive(Drop)]
pub enum Entity {
    Variable(VarId, Ty),
    Function(u32),
}

/// A name in scope. In a list of names the innermost stands last.
#[derive(Drop)]
pub struct Entry {
    pub name: Items<u8>,
    pub entity: Entity,
}

/// What an expression means: a number, with its atoms in source order and where they stand; a pointer to an object of
/// this type; or a place with its type.
#[derive(Drop)]
pub enum Typed {
    Int(Expr, Items<(Atom, Span)>),
    Ptr(Ty, Pexpr),
    Place(Ty, Lval),
}

/// What an operand must be, as a value.
#[derive(Clone, Copy, PartialEq, Eq, Debug)]
pub enum Need {
    Int,
    /// a number or a pointer
    Scalar,
    Pointer,
    Struct,
    StructPointer,
}

/// An expression has at most one meaning (a law).
pub fn one_meaning()
    ensures { (env : Env) (tree : Tree) (m n : Typed) → Means env tree m → Means env tree n → m ≡ n }
{}

/// An expression has a meaning or breaks a rule, and never both (a law).
pub fn meaning_or_fault()
    ensures one { (env : Env) (tree : Tree) → ((m : Typed) × Means env tree m) ⊎ ((f : TypeFault) × Breaks env tree f) }
    ensures never_both { (env : Env) (tree : Tree) (m : Typed) (f : TypeFault) → Means env tree m → Breaks env tree f → ⊥ }
{}

/// The verdict of an expression is its meaning where nothing is broken in it, and else the first break: the one with the
/// least start, at one start the first in the list of kinds (a law).
pub fn verdicts_are_exact()
    ensures { (env : Env) (tree : Tree) → Exact env tree (verdict_of env tree) }
{}

/// The atoms that come with a number, or with a place that is read, are those of its expression, in source order (a law).
pub fn atoms_in_order()
    ensures { (env : Env) (tree : Tree) (m : Typed) (span : at.Span) → Means env tree m → CarriesItsAtoms (value_of span m) }
{}
