//! The program of a tree: which program a source of the whole grammar is, by the rules on names and types.
//!
//! The definitions stand in `specs/`: `Given` for values, `Becomes` for statements, `IsProgramOf` for sources, and `Breaks..`
//! for the rules that they break. This file has the laws about them.
#![tactic(auto)]

ghost use Rattle.std.specs.Prelude.{◌≡◌, ◌⊎◌, ℕ, Bool, List, Option};
ghost use Rattle.ax_prog.specs.declared.Span as place;
ghost use Rattle.ax_prog.specs.declared.Ty as of_type;
ghost use Rattle.ax_prog.specs.declared.Lval.{Lval};
ghost use Rattle.ax_prog.specs.declared.Value.{Value};
ghost use Rattle.ax_prog.specs.declared.Stmt.{Stmt as Outcome};
ghost use Rattle.ax_parse_grammar.specs.declared.tree.Expr.{Expr};
ghost use Rattle.ax_parse_grammar.specs.declared.tree.Base.{Base};
ghost use Rattle.ax_parse_grammar.specs.declared.tree.Declared.{Declared};
ghost use Rattle.ax_parse_grammar.specs.declared.tree.Stmt.{Stmt};
ghost use Rattle.ax_parse_grammar.specs.declared.tree.Tree.{Tree};
ghost use Rattle.ax_prog.specs.declared.Program.{Program};
ghost use Rattle.ax_names_types.specs.declared.TypeFault.{TypeFault};
ghost use Rattle.ax_names_declared.specs.Firsts.{Exact};
ghost use Rattle.ax_names_rules.specs.declared.State as now;
ghost use Rattle.ax_names_rules.specs.Values.{IsNumber, Calls, Given, IsTarget};
ghost use Rattle.ax_names_rules.specs.Declarations.{BecomeVars, BecomeGlobals};
ghost use Rattle.ax_names_rules.specs.Statements.{Becomes, BecomeAll};
ghost use Rattle.ax_names_rules.specs.Programs.{IsProgramOf};
ghost use Rattle.ax_names_rules.specs.Slots.{CarryTheirAtoms};
ghost use Rattle.ax_names_rules.specs.FileFaults.{BreaksSource};
ghost use Rattle.ax_names_rules.specs.FileWalk.{program_of};
ghost use Rattle.ax_names_rules.specs.ValueFaults.{BreaksNumber, BreaksCall, BreaksGiven, BreaksTarget};
ghost use Rattle.ax_names_rules.specs.StatementFaults.{BreaksVars, BreaksGlobals, BreaksStmt, BreaksAll};
ghost use Rattle.ax_names_rules.specs.ValueWalk.{Numbered, Called, number_of, call_of, given_for, target_of};
ghost use Rattle.ax_names_rules.specs.StatementWalk.{vars_of, globals_of, stmt_of, items_of};

use ax_names_types::Entry;
use ax_prog::{Fun, Init, Slot, Struct, Ty, Var, VarId};
use sqlite_items::Items;

/// What the head of a function says: its name, the type of its value (none for `void`), and its parameters' types.
#[derive(Drop)]
pub struct Signature {
    pub name: Items<u8>,
    pub result: Option<Ty>,
    pub params: Items<Ty>,
}

/// What a source says up to some place: the names in scope there (the innermost last), and all structs, variables, slots,
/// heads of functions, globals with what they begin with, and functions.
#[derive(Drop)]
pub struct State {
    pub names: Items<Entry>,
    pub structs: Items<Struct>,
    pub vars: Items<Var>,
    pub slots: Items<Slot>,
    pub heads: Items<Signature>,
    pub globals: Items<(VarId, Init)>,
    pub funs: Items<Fun>,
}

/// Where a place of some type wants a value, an expression is one value at most, and one state is behind it (a law).
pub fn one_value()
    ensures { (defs : List (List ℕ)) (u : of_type.Ty) (st s t : now.State) (a : Expr) (v w : Value) → Given defs st u a v s → Given defs st u a w t → (v ≡ w) × (s ≡ t) }
{}

/// The walk over a number, a call, a value for a place of some type, or the target of a change gives what the rules say,
/// or the first rule that is broken: the one with the least start, at one start the first in the list of kinds (a law).
pub fn values_are_exact()
    ensures number { (st : now.State) (a : Expr) → Exact (λ (n : Numbered). IsNumber st a n.0 n.1) (BreaksNumber st a) (number_of st a) }
    ensures call { (defs : List (List ℕ)) (st : now.State) (a : Expr) → Exact (λ (c : Called × now.State). Calls defs st a (c.0).0 ((c.0).1).0 ((c.0).1).1 c.1) (BreaksCall defs st a) (call_of defs st a) }
    ensures given { (defs : List (List ℕ)) (u : of_type.Ty) (at : place.Span) (st : now.State) (a : Expr) → Exact (λ (r : Value × now.State). Given defs st u a r.0 r.1) (BreaksGiven defs st u at a) (given_for defs u at st a) }
    ensures target { (st : now.State) (a : Expr) → Exact (λ (l : of_type.Ty × Lval). IsTarget st a l.0 l.1) (BreaksTarget st a) (target_of st a) }
{}

/// The walk over the declarators of a declaration, in a block or of globals, gives what the rules say, or the first rule
/// that is broken (a law).
pub fn declarations_are_exact()
    ensures variables { (defs : List (List ℕ)) (floor : ℕ) (base : Base) (ds : List Declared) (st : now.State) → Exact (λ (r : List Outcome × now.State). BecomeVars defs floor base st ds r.0 r.1) (BreaksVars defs floor base st ds) (vars_of defs floor base ds st) }
    ensures globals { (base : Base) (ds : List Declared) (st : now.State) → Exact (BecomeGlobals base st ds) (BreaksGlobals base st ds) (globals_of base ds st) }
{}

/// A statement becomes one statement of the program at most, and the items of a block one list of them; one state is
/// behind it (a law).
pub fn one_statement()
    ensures statement { (defs : List (List ℕ)) (result : Option of_type.Ty) (f : Bool) (x : Stmt) (st s t : now.State) (b c : Outcome) → Becomes defs result f st x b s → Becomes defs result f st x c t → (b ≡ c) × (s ≡ t) }
    ensures items { (defs : List (List ℕ)) (result : Option of_type.Ty) (f : Bool) (floor : ℕ) (xs : List Stmt) (st s t : now.State) (bs cs : List Outcome) → BecomeAll defs result f floor st xs bs s → BecomeAll defs result f floor st xs cs t → (bs ≡ cs) × (s ≡ t) }
{}

/// A statement becomes something or breaks a rule, and never both (a law).
pub fn statement_or_fault()
    ensures one { (defs : List (List ℕ)) (result : Option of_type.Ty) (f : Bool) (x : Stmt) (st : now.State) → ((r : Outcome × now.State) × Becomes defs result f st x r.0 r.1) ⊎ ((g : TypeFault) × BreaksStmt defs result f st x g) }
    ensures never_both { (defs : List (List ℕ)) (result : Option of_type.Ty) (f : Bool) (x : Stmt) (st s : now.State) (b : Outcome) (g : TypeFault) → Becomes defs result f st x b s → BreaksStmt defs result f st x g → ⊥ }
{}

/// The walk over a statement, or over the items of a block, gives what the rules say, or the first rule that is broken
/// (a law).
pub fn statements_are_exact()
    ensures statement { (defs : List (List ℕ)) (result : Option of_type.Ty) (f : Bool) (x : Stmt) (st : now.State) → Exact (λ (r : Outcome × now.State). Becomes defs result f st x r.0 r.1) (BreaksStmt defs result f st x) (stmt_of defs result f x st) }
    ensures items { (defs : List (List ℕ)) (result : Option of_type.Ty) (f : Bool) (floor : ℕ) (xs : List Stmt) (st : now.State) → Exact (λ (r : List Outcome × now.State). BecomeAll defs result f floor st xs r.0 r.1) (BreaksAll defs result f floor st xs) (items_of defs result f floor xs st) }
{}

/// A tree has at most one program (a law).
pub fn one_program()
    ensures { (tree : Tree) (p q : Program) → IsProgramOf tree p → IsProgramOf tree q → p ≡ q }
{}

/// A tree has a program or breaks a rule, and never both (a law).
pub fn program_or_fault()
    ensures one { (tree : Tree) → ((p : Program) × IsProgramOf tree p) ⊎ ((f : TypeFault) × BreaksSource tree f) }
    ensures never_both { (tree : Tree) (p : Program) (f : TypeFault) → IsProgramOf tree p → BreaksSource tree f → ⊥ }
{}

/// The walk over a tree gives its program, or the first rule that is broken: the one with the least start, at one start the
/// first in the list of kinds (a law).
pub fn programs_are_exact()
    ensures { (tree : Tree) → Exact (IsProgramOf tree) (BreaksSource tree) (program_of tree) }
{}

/// The atoms of each slot of a tree's program are those of its expression, in source order (a law).
pub fn slots_carry_their_atoms()
    ensures { (tree : Tree) (p : Program) → IsProgramOf tree p → CarryTheirAtoms p.slots }
{}
