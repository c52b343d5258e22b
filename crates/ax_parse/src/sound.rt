//! What the parsers on lists read is spelled; with the laws of `ax_parse_grammar`, they read exactly what is spelled.

ghost use Rattle.std.specs.Prelude.{◌≡◌, ℕ, List, [], Some};
ghost use Rattle.ax_prog.specs.declared.tokens.Token.{Token};
ghost use Rattle.ax_parse_grammar.specs.declared.tree.Part.{Part};
ghost use Rattle.ax_parse_grammar.specs.Terminals.{extent};
ghost use Rattle.ax_parse_grammar.specs.Sources.{SpellsTree};
ghost use Rattle.ax_parse_grammar.specs.Reading.{repeated};
ghost use Rattle.ax_parse_grammar.specs.ReadSources.{tree_of, ends_source, top};

/// A token list whose parts are read to its end spells the tree of these parts (a law).
pub fn read_is_spelled()
    ensures { (n : ℕ) (tokens : List Token) (parts : List Part) → repeated ends_source top n tokens ≡ Some (parts, []) → SpellsTree (tree_of (extent tokens) parts) tokens }
{}
