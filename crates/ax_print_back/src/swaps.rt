//! Stretches of tokens in a text: copied, and replaced by other texts.
//!
//! The definitions stand in `specs/Swaps`: `IsCopied`, the bytes of a stretch as a text of its own, and `IsSwapped`, the text
//! with another one in parentheses in its place. Both say where each token stands. This file has the laws about them.

ghost use Rattle.std.specs.Prelude.{List, ◌∷◌, ◌++◌};
ghost use Rattle.ax_prog.specs.declared.tokens.Kind.{Kind};
ghost use Rattle.ax_prog.specs.declared.tokens.Token.{Token};
ghost use Rattle.ax_lex.specs.Bytes.{Text};
ghost use Rattle.ax_lex.specs.Pieces.{SpellsTokens};
ghost use Rattle.ax_lex.specs.Splices.{SpellsInside};
ghost use Rattle.ax_print_back.specs.Swaps.{IsCopied, IsSwapped};

/// The bytes of a stretch of tokens spell these tokens wherever they are copied to (a law).
pub fn stretches_are_copied()
    ensures { (bytes : Text) (front : List Token) (t : Token) (ts back : List Token) → SpellsTokens bytes (front ++ ((t ∷ ts) ++ back)) → IsCopied bytes (t ∷ ts) }
{}

/// Where a stretch of tokens is replaced by a text in parentheses, the bytes spell that text's tokens there (a law).
pub fn stretches_are_swapped()
    ensures { (bytes : Text) (front : List Token) (t : Token) (ts back : List Token) (text : Text) (kinds : List Kind) (inside : SpellsInside text kinds) → SpellsTokens bytes (front ++ ((t ∷ ts) ++ back)) → IsSwapped bytes front (t ∷ ts) back inside }
{}
