//! Printed trees, in words of the grammar: the text of a tree that fits a slot of a source's program spells an expression that
//! writes the tree out.

ghost use Rattle.std.specs.Prelude.{◌≡◌, ℕ, List, Some, slice_get};
ghost use Rattle.ax_prog.specs.declared.Expr as number;
ghost use Rattle.ax_prog.specs.declared.Slot.{Slot};
ghost use Rattle.ax_prog.specs.declared.Program.{Program};
ghost use Rattle.ax_prog.specs.declared.tokens.Token.{Token};
ghost use Rattle.ax_prog.specs.Substitution.{FitsSlot};
ghost use Rattle.ax_lex.specs.Bytes.{Text};
ghost use Rattle.ax_lex.specs.Pieces.{SpellsTokens};
ghost use Rattle.ax_print.specs.Text.{tree_text, leaf_text};
ghost use Rattle.ax_parse_grammar.specs.declared.tree.Tree.{Tree};
ghost use Rattle.ax_parse_grammar.specs.Sources.{SpellsTree};
ghost use Rattle.ax_print_fills.specs.Replaced.{IsFilledIn};
ghost use Rattle.ax_front_facts.specs.Spans.{NamesAreWords};
ghost use Rattle.ax_front_facts.specs.Writable.{IsWritable};
ghost use Rattle.ax_print_back.specs.Shown.{IsShown};

use crate::stretches_are_copied;
use ax_print_fills::atoms_are_parts;
use ax_print_holes::holes_are_spelled;

/// The text of a tree that fits a slot spells an expression that writes the tree out where the slot stands (a law).
pub fn trees_are_shown()
    ensures { (bytes : Text) (tokens : List Token) (tree : Tree) (p : Program) (k : ℕ) (slot : Slot) (x : number.Expr) → SpellsTokens bytes tokens → SpellsTree tree tokens → NamesAreWords p → slice_get p.slots k ≡ Some slot → (h : IsFilledIn tree p k slot) → FitsSlot slot x → IsWritable x → IsShown p.vars h.there x (tree_text (leaf_text bytes p (record { 0 = k })) x) }
{
    holes_are_spelled();
    atoms_are_parts();
    stretches_are_copied();
}
