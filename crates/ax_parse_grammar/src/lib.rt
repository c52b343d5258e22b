//! The grammar of sources: the trees, which trees a token list spells, and that it spells at most one.
//!
//! The definitions stand in `specs/`: `Spells` for expressions, `SpellsStmt` for statements, `SpellsTree` for sources. This
//! file has the laws about them; the parsers above this crate keep to them.
#![tactic(auto)]

ghost use Rattle.std.specs.Prelude.{◌≡◌, Bool, List};
ghost use Rattle.ax_prog.specs.declared.tokens.Token.{Token};
ghost use Rattle.ax_parse_grammar.specs.declared.tree.Expr.{Expr};
ghost use Rattle.ax_parse_grammar.specs.declared.tree.Stmt.{Stmt};
ghost use Rattle.ax_parse_grammar.specs.declared.tree.Tree.{Tree};
ghost use Rattle.ax_parse_grammar.specs.Expressions.{Spells};
ghost use Rattle.ax_parse_grammar.specs.Statements.{SpellsStmt};
ghost use Rattle.ax_parse_grammar.specs.Sources.{SpellsTree};
ghost use Rattle.ax_parse_grammar.specs.Rows.{AndBelowEqual, MinusFromTheLeft, CondFromTheRight, ElseIsTheNearest};

pub mod operators;
pub mod starts;
pub mod terminals;
pub mod tree;

/// A token list spells at most one expression (a law).
pub fn one_expression()
    ensures { (x y : Expr) (tokens : List Token) → Spells 0 x tokens → Spells 0 y tokens → x ≡ y }
{}

/// A token list spells at most one statement (a law).
pub fn one_statement()
    ensures { (f g : Bool) (x y : Stmt) (tokens : List Token) → SpellsStmt f x tokens → SpellsStmt g y tokens → x ≡ y }
{}

/// A token list spells at most one tree (a law).
pub fn one_tree()
    ensures { (x y : Tree) (tokens : List Token) → SpellsTree x tokens → SpellsTree y tokens → x ≡ y }
{}

/// How four short token lists are spelled, and that they are spelled in no other way (a law): `a & b == c` as
/// `a & (b == c)`; `a - b - c` as `(a - b) - c`; `a ? b : c ? d : e` as `a ? b : (c ? d : e)`; and `if (a) if (b) ; else ;`
/// with the `else` at the nearer `if`.
pub fn short_lists()
    ensures and { AndBelowEqual }
    ensures minus { MinusFromTheLeft }
    ensures cond { CondFromTheRight }
    ensures nearest { ElseIsTheNearest }
{}
