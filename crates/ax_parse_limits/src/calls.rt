//! The first call in a source that stands inside an expression.
ghost use Rattle.std.specs.Prelude.{◌≡◌};
ghost use Rattle.ax_parse_limits.specs.Calls.{first_of, maybe, call_in_simple as call_in_simple_of, call_in_declared as call_in_declared_of, call_in_decl as call_in_decl_of, call_in_opening as call_in_opening_of, call_in_stmt as call_in_stmt_of, call_in_part as call_in_part_of, call_inside as call_inside_of, first_call as first_call_of, inner_call as inner_call_of};

use crate::call_expressions::{first_call, inner_call, or};
use ax_parse_grammar::tree::{
    Decl, Declared, Expr, Initialiser, Opening, Part, Simple, Stmt, Tree,
};

fn maybe_first(tree: &Option<Expr>) -> Option<usize>
    ensures { result ≡ maybe first_call_of tree.now }
{
    match tree {
        None => None,
        Some(tree) => first_call(tree),
    }
}

fn maybe_inner(tree: &Option<Expr>) -> Option<usize>
    ensures { result ≡ maybe inner_call_of tree.now }
{
    match tree {
        None => None,
        Some(tree) => inner_call(tree),
    }
}

fn call_in_simple(act: &Simple) -> Option<usize>
    ensures { result ≡ call_in_simple_of act.now }
{
    match act {
        Simple::Assign(_, a, x) => or(first_call(a), inner_call(x)),
        Simple::Change(_, a, _, x) => or(first_call(a), first_call(x)),
        Simple::Step(_, a, _) => first_call(a),
        Simple::Call(_, x) => inner_call(x),
    }
}

fn maybe_simple(act: &Option<Simple>) -> Option<usize>
    ensures { result ≡ maybe call_in_simple_of act.now }
{
    match act {
        None => None,
        Some(act) => call_in_simple(act),
    }
}

fn call_in_declared(item: &Declared) -> Option<usize>
    ensures { result ≡ call_in_declared_of item.now }
{
    match &item.initialiser {
        Initialiser::Nothing => None,
        Initialiser::Value(x) => inner_call(x),
        Initialiser::List(_, _) => None,
    }
}

fn first_in_declared(mut items: &[Declared]) -> Option<usize>
    ensures { result ≡ first_of call_in_declared_of items.entry.now }
{
    while let [item, rest @ ..] = items {
        if let Some(at) = call_in_declared(item) {
            return Some(at);
        }
        items = rest;
    }
    None
}

fn call_in_decl(decl: &Decl) -> Option<usize>
    ensures { result ≡ call_in_decl_of decl.now }
{
    first_in_declared(decl.items.as_slice())
}

fn call_in_opening(opening: &Opening) -> Option<usize>
    ensures { result ≡ call_in_opening_of opening.now }
{
    match opening {
        Opening::Nothing => None,
        Opening::Simple(act) => call_in_simple(act),
        Opening::Decl(decl) => call_in_decl(decl),
    }
}

#[cycle(statements)]
#[tactic(auto, using(crate::proofs::CallLayers::statements))]
fn call_in_stmt(stmt: &Stmt) -> Option<usize>
    ensures { result ≡ call_in_stmt_of stmt.now }
{
    match stmt {
        Stmt::Empty(_) => None,
        Stmt::Block(_, items) => first_in_stmts(items.as_slice()),
        Stmt::Decl(decl) => call_in_decl(decl),
        Stmt::Simple(_, act) => call_in_simple(act),
        Stmt::If(_, c, x) => or(first_call(c), call_in_stmt(x.get())),
        Stmt::IfElse(_, c, x, y) => {
            let branches = or(call_in_stmt(x.get()), call_in_stmt(y.get()));
            or(first_call(c), branches)
        }
        Stmt::While(_, c, x) => or(first_call(c), call_in_stmt(x.get())),
        Stmt::Do(_, x, c) => or(call_in_stmt(x.get()), first_call(c)),
        Stmt::For(_, opening, c, step, x) => {
            let step_or_body = or(maybe_simple(step), call_in_stmt(x.get()));
            or(call_in_opening(opening), or(maybe_first(c), step_or_body))
        }
        Stmt::Break(_) => None,
        Stmt::Continue(_) => None,
        Stmt::Return(_, x) => maybe_inner(x),
        Stmt::Read(_, a) => first_call(a),
        Stmt::Print(_, _, a) => first_call(a),
    }
}

#[cycle(statements)]
fn first_in_stmts(items: &[Stmt]) -> Option<usize>
    ensures { result ≡ first_of call_in_stmt_of items.now }
{
    for stmt in items {
        if let Some(at) = call_in_stmt(stmt) {
            return Some(at);
        }
    }
    None
}

fn call_in_part(part: &Part) -> Option<usize>
    ensures { result ≡ call_in_part_of part.now }
{
    match part {
        Part::Struct(_, _, _) => None,
        Part::Decl(decl) => call_in_decl(decl),
        Part::Function(_, _, body) => first_in_stmts(body.as_slice()),
        Part::Prototype(_, _) => None,
    }
}

fn first_in_parts(mut parts: &[Part]) -> Option<usize>
    ensures { result ≡ first_of call_in_part_of parts.entry.now }
{
    while let [part, rest @ ..] = parts {
        if let Some(at) = call_in_part(part) {
            return Some(at);
        }
        parts = rest;
    }
    None
}

/// The place of the first call that stands inside an expression. Calls stand only as a whole statement, as the whole right
/// side of `=` or of an initialiser, or as the whole operand of `return`; their arguments hold no call.
pub fn call_inside(tree: &Tree) -> Option<usize>
    ensures { result ≡ call_inside_of tree.now }
{
    first_in_parts(tree.parts.as_slice())
}
