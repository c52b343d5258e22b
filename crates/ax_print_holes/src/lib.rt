//! Sources with an expression replaced: where the tokens of one expression are replaced, the token list spells the tree with
//! the new expression in its place.
//!
//! The definitions stand in `specs/`: `moved_tree` is a tree that stands elsewhere, `Holds` a path to an expression, `put` the
//! tree with another one there. This file has the laws about them.
#![tactic(auto)]

ghost use Rattle.std.specs.Prelude.{◌≡◌, ℕ, List};
ghost use Rattle.ax_prog.specs.declared.tokens.Token.{Token};
ghost use Rattle.ax_parse_grammar.specs.declared.tree.Expr.{Expr};
ghost use Rattle.ax_parse_grammar.specs.declared.tree.Tree.{Tree};
ghost use Rattle.ax_parse_grammar.specs.Sources.{SpellsTree};
ghost use Rattle.ax_print_holes.specs.Moved.{moved_tokens, moved_tree};
ghost use Rattle.ax_print_holes.specs.Holes.{Holds};
ghost use Rattle.ax_print_holes.specs.Places.{IsRespelled};

/// A source that is moved in its text, with the text's start at its place, is spelled by its tokens moved alike (a law).
pub fn moved_sources_are_spelled()
    ensures { (f : ℕ → ℕ) (tree : Tree) (tokens : List Token) → f 0 ≡ 0 → SpellsTree tree tokens → SpellsTree (moved_tree f tree) (moved_tokens f tokens) }
{}

/// A source holds the tokens of each expression to which a path leads, and with others in their place it spells the tree with
/// the new expression there (a law).
pub fn holes_are_spelled()
    ensures { (old : Expr) (tree : Tree) (tokens : List Token) (h : Holds old tree) → SpellsTree tree tokens → IsRespelled tree h tokens }
{}
