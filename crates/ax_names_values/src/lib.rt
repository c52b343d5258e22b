//! Judging expressions: what an expression of the whole grammar means in a scope, or its first fault.
#![tactic(auto)]

ghost use Rattle.std.specs.Prelude.{◌≡◌, IfOk};
ghost use Rattle.ax_names_types.specs.Scopes.{env_of};
ghost use Rattle.ax_names_types.specs.Breaks.{Exact};
ghost use Rattle.ax_names_types.specs.Verdicts.{verdict_of};

pub mod operands;
mod operators;
mod places;
mod walk;

use ax_names_types::{Entry, TypeFault, Typed};
use ax_parse_grammar::tree::Expr;
use ax_prog::Struct;
use std::alloc::{AllocError, Global};

/// What a part of an expression means, or its first fault.
pub type Verdict = Result<Typed, TypeFault>;

/// What an expression means among these names and structs where it breaks no rule of types, and else the first rule that it
/// breaks: the one with the least start, at one start the first in the list of kinds. The innermost name stands last.
pub fn judged(
    alloc: Global,
    tree: &Expr,
    names: &[Entry],
    structs: &[Struct],
) -> Result<Verdict, AllocError>
    ensures exact { IfOk result (λ v. Exact (env_of names.now structs.now) tree.now v) }
    ensures verdict { IfOk result (λ v. v ≡ verdict_of (env_of names.now structs.now) tree.now) }
{
    walk::typed(alloc, tree, names, structs)
}
