//! Programs of sources with a number replaced: a source that stands elsewhere in its text is the same program there, each slot
//! of a program is the value of an expression of its source, and another number in that expression's place is the program
//! with that number in the slot.
//!
//! The definitions stand in `specs/`: `Replaced` has moved programs, programs with one number replaced, and where a slot's
//! number stands in the source; `Written` has the expressions that write a tree out, and the parts of an expression that are
//! its atoms. This file has the laws about them.
#![tactic(auto)]

ghost use Rattle.std.specs.Prelude.{◌≡◌, ℕ, List, All, Some, slice_get};
ghost use Rattle.ax_prog.specs.declared.Span as place;
ghost use Rattle.ax_prog.specs.declared.Var.{Var};
ghost use Rattle.ax_prog.specs.declared.Expr as number;
ghost use Rattle.ax_prog.specs.declared.Atom.{Atom};
ghost use Rattle.ax_prog.specs.declared.Slot.{Slot};
ghost use Rattle.ax_prog.specs.declared.Program.{Program};
ghost use Rattle.ax_parse_grammar.specs.declared.tree.Expr.{Expr};
ghost use Rattle.ax_parse_grammar.specs.declared.tree.Tree.{Tree};
ghost use Rattle.ax_names_types.specs.Scopes.{Env};
ghost use Rattle.ax_names_rules.specs.Programs.{IsProgramOf};
ghost use Rattle.ax_print_holes.specs.Moved.{moved_tree};
ghost use Rattle.ax_print_fills.specs.Replaced.{moved_program, AgreeWith, IsNumberIn, IsFilledIn};
ghost use Rattle.ax_print_fills.specs.Written.{HasAtom, IsWritten};

/// A source that stands elsewhere in its text is the same program, with the places of its numbers there (a law).
pub fn moved_programs()
    ensures { (f : ℕ → ℕ) (tree : Tree) (p : Program) → IsProgramOf tree p → IsProgramOf (moved_tree f tree) (moved_program f p) }
{}

/// Each slot of a source's program is the value of an expression of the source, and another number may be filled in there
/// (a law).
pub fn filled_programs()
    ensures { (tree : Tree) (p : Program) (k : ℕ) (slot : Slot) → IsProgramOf tree p → slice_get p.slots k ≡ Some slot → IsFilledIn tree p k slot }
{}

/// A tree that is written out is that number: numbers, operators, variables by their names where these are visible, and any
/// atom by an expression that is that atom there, wherever it stands (a law).
pub fn written_numbers()
    ensures { (there : Env) (vars : List Var) (x : number.Expr) (a : Expr) → AgreeWith vars there.names → IsWritten vars there x a → (atoms : List (Atom × place.Span)) × IsNumberIn there a x atoms }
{}

/// Each atom of a number is a part of its expression, at the atom's span (a law).
pub fn atoms_are_parts()
    ensures { (there : Env) (a : Expr) (x : number.Expr) (atoms : List (Atom × place.Span)) → IsNumberIn there a x atoms → All (HasAtom there a) atoms }
{}
