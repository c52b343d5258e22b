//! The types that every layer speaks of: spans and tokens, the trees of a program, suites, sets and bounds.
//!
//! Lists are `Items` and boxes `Boxed`, so that a contract sees a tree as its value.
#![tactic(auto)]

pub mod copy;
pub mod nodes;
pub mod same;
mod slots;
pub mod tokens;

use ax_base::gather::{three, two};
use copy::{copy_funs, copy_globals, copy_structs, copy_vars};
use nodes::is_small_tree;
use slots::{slot_id, with_slot_tree};
use sqlite_items::{Boxed, Items};
use std::alloc::{AllocError, Global};

/// Bytes of a source, from the first up to but without the last, counted from 0.
#[derive(Clone, Copy, PartialEq, Eq, Debug)]
pub struct Span {
    pub from: u32,
    pub to: u32,
}

/// A variable: its place in the program's `vars`, from 0.
#[derive(Clone, Copy, PartialEq, Eq, Debug)]
pub struct VarId(pub u32);

/// A function: its place in the program's `funs`, from 0.
#[derive(Clone, Copy, PartialEq, Eq, Debug)]
pub struct FunId(pub u32);

/// A struct: its place in the program's `structs`, from 0.
#[derive(Clone, Copy, PartialEq, Eq, Debug)]
pub struct StructId(pub u32);

/// A slot: its place in the program's `slots`, from 0 in source order.
#[derive(Clone, Copy, PartialEq, Eq, Debug)]
pub struct SlotId(pub u32);

/// The unary operators on `int` (C11 6.5.3.3): `-`, `!`, `~`.
#[derive(Clone, Copy, PartialEq, Eq, Debug)]
pub enum Un {
    Neg,
    Not,
    BitNot,
}

/// The binary operators on `int` (C11 6.5.5 to 6.5.14).
#[derive(Clone, Copy, PartialEq, Eq, Debug)]
pub enum Bin {
    Eq,
    Ne,
    Lt,
    Le,
    Gt,
    Ge,
    And,
    Or,
    Add,
    Sub,
    Mul,
    Div,
    Rem,
    BitAnd,
    BitOr,
    BitXor,
    Shl,
    Shr,
}

/// The type of an object. An array has its element and its count.
#[derive(Drop)]
pub enum Ty {
    Int,
    Ptr(Boxed<Ty>),
    Array(Boxed<Ty>, u32),
    Struct(StructId),
}

/// An `int` expression without calls. `Cond` is `a ? b : c`.
#[cycle(tree)]
#[derive(Drop)]
pub enum Expr {
    Num(i32),
    Atom(Boxed<Atom>),
    Un(Un, Boxed<Expr>),
    Bin(Bin, Boxed<Expr>, Boxed<Expr>),
    Cond(Boxed<Expr>, Boxed<Expr>, Boxed<Expr>),
}

/// A part of an `int` expression that a repair keeps whole: the value of a place, or whether two pointers are
/// equal or differ.
#[cycle(tree)]
#[derive(Drop)]
pub enum Atom {
    Read(Lval),
    Same(Pexpr, Pexpr),
    Differ(Pexpr, Pexpr),
}

/// A place. `Deref(Plus(p, i))` stands for `p[i]`, and a `Field` has its member's place in its struct, from 0.
#[cycle(tree)]
#[derive(Drop)]
pub enum Lval {
    Var(VarId),
    Deref(Boxed<Pexpr>),
    Field(Boxed<Lval>, u32),
}

/// A pointer. `Decay` is the pointer to the first element of an array, and `Address` that of `&`.
#[cycle(tree)]
#[derive(Drop)]
pub enum Pexpr {
    Null,
    Read(Boxed<Lval>),
    Decay(Boxed<Lval>),
    Address(Boxed<Lval>),
    Plus(Boxed<Pexpr>, Boxed<Expr>),
    Minus(Boxed<Pexpr>, Boxed<Expr>),
}

/// A call-free `int` expression that stands as a condition, a right side, a local initialiser, an argument, a
/// returned or a printed value. `span` leaves out parentheses around the whole. `scope` has the `int` variables
/// visible there in order of declaration, and `atoms` those of its expression as the source was read, in source
/// order, repeats included.
#[derive(Drop)]
pub struct Slot {
    pub span: Span,
    pub expr: Expr,
    pub scope: Items<VarId>,
    pub atoms: Items<(Atom, Span)>,
}

/// An argument of a call.
#[derive(Drop)]
pub enum Arg {
    Int(SlotId),
    Ptr(Pexpr),
}

/// What an assignment, an initialiser or a `return` takes.
#[derive(Drop)]
pub enum Value {
    Int(SlotId),
    Ptr(Pexpr),
    Call(FunId, Items<Arg>),
}

/// What a declaration begins its object with. The initialiser of a global `int` is a `List` of its one number.
#[derive(Drop)]
pub enum Init {
    Nothing,
    Value(Value),
    List(Items<i32>),
}

/// A statement. `Change` is a compound assignment, on a pointer with `Add` or `Sub` alone; `Bump` adds 1 where it
/// is `true` and else subtracts 1; `Read` is `scanf` and `Print` is `printf`. A condition that a `for` leaves out is
/// `None`.
#[derive(Drop)]
pub enum Stmt {
    Empty,
    Block(Items<Stmt>),
    Decl(VarId, Init),
    Assign(Lval, Value),
    Change(Lval, Bin, SlotId),
    Bump(Lval, bool),
    Call(FunId, Items<Arg>),
    If(SlotId, Boxed<Stmt>, Option<Boxed<Stmt>>),
    While(SlotId, Boxed<Stmt>),
    Do(Boxed<Stmt>, SlotId),
    For(Items<Stmt>, Option<SlotId>, Option<Boxed<Stmt>>, Boxed<Stmt>),
    Break,
    Continue,
    Return(Option<Value>),
    Read(Lval),
    Print(SlotId),
}

/// A variable, or a parameter.
#[derive(Drop)]
pub struct Var {
    pub name: Items<u8>,
    pub ty: Ty,
}

/// A function. `result` is `None` for `void`.
#[derive(Drop)]
pub struct Fun {
    pub name: Items<u8>,
    pub params: Items<VarId>,
    pub result: Option<Ty>,
    pub body: Items<Stmt>,
}

/// A struct with the names and types of its members.
#[derive(Drop)]
pub struct Struct {
    pub name: Items<u8>,
    pub fields: Items<(Items<u8>, Ty)>,
}

/// A program: its globals with what they begin with, its functions, and which of them is `main`.
#[derive(Drop)]
pub struct Program {
    pub structs: Items<Struct>,
    pub vars: Items<Var>,
    pub globals: Items<(VarId, Init)>,
    pub funs: Items<Fun>,
    pub main: FunId,
    pub slots: Items<Slot>,
}

impl Program {
    ghost use Rattle.std.specs.Prelude.{◌≡◌, ◌<◌, length, Some, IfOk};
    ghost use Rattle.ax_prog.specs.Candidates.{candidates_of, tree_at};
    ghost use Rattle.ax_prog.specs.Substitution.{Fits, substituted};

    /// The candidates, which are the slots of at most 31 nodes, in source order. A program whose slots have no
    /// number of 32 bits fits no memory, and is answered as want of memory.
    pub fn candidates(&self, alloc: Global) -> Result<Items<SlotId>, AllocError>
        ensures { IfOk result (λ ids. ids ≡ candidates_of self.now) }
    {
        let mut ids = Items::new(alloc);
        let mut at: u64 = 0;
        for slot in self.slots.as_slice() {
            let id = slot_id(at)?;
            if is_small_tree(&slot.expr) {
                ids.push(id)?;
            }
            at += 1;
        }
        Ok(ids)
    }

    /// The tree of the slot of that number.
    pub fn expr_at(&self, id: SlotId) -> &Expr
        requires { id.0 < length self.now.slots }
        ensures { tree_at self.now id ≡ Some result.now }
    {
        &self.slots.as_slice()[id.0 as usize].expr
    }

    /// The program with the tree of the slot of that number replaced. All else stays, the slot's `scope` and
    /// `atoms` too.
    pub fn substitute(&self, alloc: Global, id: SlotId, tree: Expr) -> Result<Program, AllocError>
        requires slot { id.0 < length self.now.slots }
        requires fits { Fits self.now id tree }
        ensures { IfOk result (λ it. it ≡ substituted self.now id tree) }
    {
        let structs = copy_structs(alloc, self.structs.as_slice());
        let vars = copy_vars(alloc, self.vars.as_slice());
        let globals = copy_globals(alloc, self.globals.as_slice());
        let funs = copy_funs(alloc, self.funs.as_slice());
        let slots = with_slot_tree(alloc, self.slots.as_slice(), id, tree);
        let names = three(structs, vars, globals);
        let ((structs, vars, globals), (funs, slots)) = two(names, two(funs, slots))?;
        Ok(Program {
            structs,
            vars,
            globals,
            funs,
            main: self.main,
            slots,
        })
    }
}

/// One test of a suite: the numbers handed in, the numbers wanted, and the number that `main` is to return.
#[derive(Drop)]
pub struct Test {
    pub inputs: Items<i32>,
    pub outputs: Items<i32>,
    pub ret: i32,
}

#[derive(Drop)]
pub struct Suite {
    pub tests: Items<Test>,
}

/// The sets of labels that a repair may use. `guard` allows `&& c` and `|| c` around a condition, which is no label.
#[derive(Clone, Copy, PartialEq, Eq, Debug)]
pub struct Sets {
    pub cmp: bool,
    pub logic: bool,
    pub arith: bool,
    pub mul: bool,
    pub bits: bool,
    pub vars: bool,
    pub consts: bool,
    pub guard: bool,
}

/// Steps of a run, evaluations of chosen expressions in a run, and growth of a tree.
#[derive(Clone, Copy, PartialEq, Eq, Debug)]
pub struct Bounds {
    pub steps: u32,
    pub evals: u32,
    pub grow: u32,
}
