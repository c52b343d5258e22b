//! What a text says of the program that it spells: laws over the rules of tokens, trees, names and types.
#![tactic(auto)]

ghost use Rattle.std.specs.Prelude.{◌↔◌, List, length, IsTrue};
ghost use Rattle.ax_prog.specs.declared.Program.{Program};
ghost use Rattle.ax_prog.specs.declared.tokens.Token.{Token};
ghost use Rattle.ax_lex.specs.Bytes.{Text};
ghost use Rattle.ax_lex.specs.Pieces.{SpellsTokens};
ghost use Rattle.ax_parse_grammar.specs.declared.tree.Tree.{Tree};
ghost use Rattle.ax_parse_grammar.specs.Sources.{SpellsTree};
ghost use Rattle.ax_names_rules.specs.Programs.{IsProgramOf};
ghost use Rattle.ax_front_facts.specs.Spans.{LiesIn, SlotsLie, SlotsFit, SlotsRise, SlotsWritable, NamesAreWords};

use ax_prog::Span;

/// Whether the span is a stretch of a text of `len` bytes.
pub fn lies_in(len: u64, span: &Span) -> bool
    ensures { IsTrue result ↔ LiesIn len span.now }
{
    span.from <= span.to && u64::from(span.to) <= len
}

/// Each slot of the program that a text spells stands in the text (a law).
pub fn slots_lie()
    ensures { (bytes : Text) (tokens : List Token) (tree : Tree) (program : Program) → SpellsTokens bytes tokens → SpellsTree tree tokens → IsProgramOf tree program → SlotsLie (length bytes) program }
{}

/// The slots stand one after another: each ends before the next one begins (a law).
pub fn slots_rise()
    ensures { (bytes : Text) (tokens : List Token) (tree : Tree) (program : Program) → SpellsTokens bytes tokens → SpellsTree tree tokens → IsProgramOf tree program → SlotsRise program }
{}

/// Each slot's own tree fits the slot: its numbers aren't negative, and its atoms are the slot's (a law).
pub fn slots_fit()
    ensures { (bytes : Text) (tokens : List Token) (tree : Tree) (program : Program) → SpellsTokens bytes tokens → SpellsTree tree tokens → IsProgramOf tree program → SlotsFit program }
{}

/// Each slot's own tree can be written (a law).
pub fn slots_are_writable()
    ensures { (bytes : Text) (tokens : List Token) (tree : Tree) (program : Program) → SpellsTokens bytes tokens → SpellsTree tree tokens → IsProgramOf tree program → SlotsWritable program }
{}

/// Each variable's name is the text of a name token (a law).
pub fn names_are_words()
    ensures { (bytes : Text) (tokens : List Token) (tree : Tree) (program : Program) → SpellsTokens bytes tokens → SpellsTree tree tokens → IsProgramOf tree program → NamesAreWords program }
{}
