//! The trees of sources: a type for each rule of the grammar, with the rule's parts in order and its span.
//!
//! A span goes from the first token of what the rule spells to the last. Parentheses around an expression leave no node,
//! and the expression's own span leaves them out.
ghost use Rattle.std.specs.Prelude.{◌≡◌};
ghost use Rattle.ax_parse_grammar.specs.Trees.{span_of as span_of_tree};

use ax_prog::{Bin, Span};
use sqlite_items::{Boxed, Items};

/// A name, where it stands.
#[derive(Drop)]
pub struct Name {
    pub span: Span,
    pub text: Items<u8>,
}

/// The unary operators (C11 6.5.3): `-`, `!`, `~`, `*`, `&`.
#[derive(Clone, Copy, PartialEq, Eq, Debug)]
pub enum Prefix {
    Neg,
    Not,
    BitNot,
    Deref,
    Address,
}

/// An expression (C11 6.5).
#[derive(Drop)]
pub enum Expr {
    Name(Span, Items<u8>),
    Number(Span, i32),
    Unary(Span, Prefix, Boxed<Expr>),
    Binary(Span, Bin, Boxed<Expr>, Boxed<Expr>),
    /// `a ? b : c`
    Cond(Span, Boxed<Expr>, Boxed<Expr>, Boxed<Expr>),
    /// `a[i]`
    Index(Span, Boxed<Expr>, Boxed<Expr>),
    /// `a.n`
    Member(Span, Boxed<Expr>, Name),
    /// `a->n`
    Arrow(Span, Boxed<Expr>, Name),
    /// `f(a, ..)`
    Call(Span, Boxed<Expr>, Items<Expr>),
}

/// `int`, or `struct` and its tag.
#[derive(Drop)]
pub enum Base {
    Int(Span),
    Struct(Span, Name),
}

/// What a function returns, stars aside.
#[derive(Drop)]
pub enum Returns {
    Void(Span),
    Of(Base),
}

/// A size in square brackets; none in `[]`.
#[derive(Clone, Copy, PartialEq, Eq, Debug)]
pub struct Size {
    pub span: Span,
    pub count: Option<i32>,
}

/// A declarator: `stars` many `*`, the name and the sizes.
#[derive(Drop)]
pub struct Declarator {
    pub span: Span,
    pub stars: usize,
    pub name: Name,
    pub sizes: Items<Size>,
}

/// A number of a brace list, with or without `-` before it.
#[derive(Clone, Copy, PartialEq, Eq, Debug)]
pub struct Signed {
    pub span: Span,
    pub negative: bool,
    pub value: i32,
}

/// What a declarator is initialised by.
#[derive(Drop)]
pub enum Initialiser {
    Nothing,
    Value(Expr),
    List(Span, Items<Signed>),
}

/// A declarator with its initialiser.
#[derive(Drop)]
pub struct Declared {
    pub span: Span,
    pub declarator: Declarator,
    pub initialiser: Initialiser,
}

/// `int a, *b = 0;`
#[derive(Drop)]
pub struct Decl {
    pub span: Span,
    pub base: Base,
    pub items: Items<Declared>,
}

/// A parameter. One without a name stands in prototypes.
#[derive(Drop)]
pub struct Param {
    pub span: Span,
    pub base: Base,
    pub stars: usize,
    pub name: Option<Name>,
    pub sizes: Items<Size>,
}

/// The head of a function.
#[derive(Drop)]
pub struct Head {
    pub span: Span,
    pub returns: Returns,
    pub stars: usize,
    pub name: Name,
    pub params: Items<Param>,
}

/// A statement without its `;`, which may also stand in the head of a `for`.
#[derive(Drop)]
pub enum Simple {
    /// `a = b`
    Assign(Span, Expr, Expr),
    /// `a += b` and the like
    Change(Span, Expr, Bin, Expr),
    /// `a++` and `++a` where the flag says so, else `a--` and `--a`
    Step(Span, Expr, bool),
    Call(Span, Expr),
}

/// How a `for` begins.
#[derive(Drop)]
pub enum Opening {
    Nothing,
    Simple(Simple),
    Decl(Decl),
}

/// An item of a block: a statement (C11 6.8) or a declaration.
#[derive(Drop)]
pub enum Stmt {
    Empty(Span),
    Block(Span, Items<Stmt>),
    Decl(Decl),
    Simple(Span, Simple),
    If(Span, Expr, Boxed<Stmt>),
    IfElse(Span, Expr, Boxed<Stmt>, Boxed<Stmt>),
    While(Span, Expr, Boxed<Stmt>),
    Do(Span, Boxed<Stmt>, Expr),
    For(Span, Opening, Option<Expr>, Option<Simple>, Boxed<Stmt>),
    Break(Span),
    Continue(Span),
    Return(Span, Option<Expr>),
    /// `scanf`: the target, without its `&`.
    Read(Span, Expr),
    /// `printf`: the format, numbered as in a token, and the value.
    Print(Span, u8, Expr),
}

/// Members of one base in a struct.
#[derive(Drop)]
pub struct Members {
    pub span: Span,
    pub base: Base,
    pub items: Items<Declarator>,
}

/// What stands at the top of a source.
#[derive(Drop)]
pub enum Part {
    Struct(Span, Name, Items<Members>),
    Decl(Decl),
    Function(Span, Head, Items<Stmt>),
    Prototype(Span, Head),
}

/// A source.
#[derive(Drop)]
pub struct Tree {
    pub span: Span,
    pub parts: Items<Part>,
}

/// Where an expression stands.
pub fn span_of(tree: &Expr) -> Span
    ensures { result ≡ span_of_tree tree.now }
{
    match tree {
        Expr::Name(at, _) => *at,
        Expr::Number(at, _) => *at,
        Expr::Unary(at, _, _) => *at,
        Expr::Binary(at, _, _, _) => *at,
        Expr::Cond(at, _, _, _) => *at,
        Expr::Index(at, _, _) => *at,
        Expr::Member(at, _, _) => *at,
        Expr::Arrow(at, _, _) => *at,
        Expr::Call(at, _, _) => *at,
    }
}
