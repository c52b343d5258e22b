//! The code of statements. In a loop the jumps of `break` and `continue` are open until the loop is whole.
ghost use Rattle.std.specs.Prelude.{◌≡◌, ◌+◌, ◌++◌, [], IfOk, length};
ghost use Rattle.ax_flow.specs.Drafts.{draft_of, block_draft, block_declared, if_draft, else_draft, while_draft, do_draft, for_draft};

use crate::ops::{
    assign_code, decl_code, end_all, ends_and, fill, return_code, single, test_op,
    with_all_declared, with_declared,
};
use crate::places::after;
use crate::{Draft, Op};
use ax_prog::copy::{copy_args, copy_lval};
use ax_prog::{SlotId, Stmt, VarId};
use sqlite_items::Items;
use std::alloc::{AllocError, Global};

/// The code of a statement from this place on, in a loop whose body has declared these variables, latest first.
#[cycle(lowering)]
#[tactic(auto, using(crate::proofs::Layers::drafts))]
pub fn statement(
    stmt: &Stmt,
    alloc: Global,
    opened: &Items<VarId>,
    at: usize,
) -> Result<Items<Draft>, AllocError>
    ensures { IfOk result (λ it. it ≡ draft_of stmt.now opened.now at) }
{
    match stmt {
        Stmt::Empty => Ok(Items::new(alloc)),
        Stmt::Block(items) => {
            let mut code = block(items.as_slice(), alloc, opened, at)?;
            let own = with_all_declared(alloc, items.as_slice(), Items::new(alloc))?;
            end_all(&mut code, own.as_slice())?;
            Ok(code)
        }
        Stmt::Decl(id, init) => decl_code(alloc, *id, init),
        Stmt::Assign(place, value) => assign_code(alloc, place, value),
        Stmt::Change(place, op, id) => {
            single(alloc, Op::Change(copy_lval(alloc, place)?, *op, *id))
        }
        Stmt::Bump(place, up) => single(alloc, Op::Bump(copy_lval(alloc, place)?, *up)),
        Stmt::Call(f, args) => single(alloc, Op::Call(*f, copy_args(alloc, args.as_slice())?)),
        Stmt::If(id, first, second) => {
            let start = after(at, 1)?;
            let first = statement(first.get(), alloc, opened, start)?;
            match second {
                None => if_code(alloc, *id, at, first),
                Some(second) => {
                    let other = after(after(start, first.len())?, 1)?;
                    let second = statement(second.get(), alloc, opened, other)?;
                    else_code(alloc, *id, at, first, second)
                }
            }
        }
        Stmt::While(id, body) => {
            let none = Items::new(alloc);
            let body = statement(body.get(), alloc, &none, after(at, 1)?)?;
            while_code(alloc, *id, at, body)
        }
        Stmt::Do(body, id) => {
            let none = Items::new(alloc);
            let body = statement(body.get(), alloc, &none, at)?;
            do_code(alloc, *id, at, body)
        }
        Stmt::For(first, id, next, body) => {
            let first = first.as_slice();
            let head = block(first, alloc, opened, at)?;
            let start = after(after(at, head.len())?, 1)?;
            let none = Items::new(alloc);
            let turn = statement(body.get(), alloc, &none, start)?;
            match next {
                None => for_code(alloc, *id, first, at, head, turn, Items::new(alloc)),
                Some(next) => {
                    let vars = with_header(alloc, first, opened)?;
                    let place = after(start, turn.len())?;
                    let last = statement(next.get(), alloc, &vars, place)?;
                    for_code(alloc, *id, first, at, head, turn, last)
                }
            }
        }
        Stmt::Break => ends_and(alloc, opened, Draft::Breaks),
        Stmt::Continue => ends_and(alloc, opened, Draft::Continues),
        Stmt::Return(value) => return_code(alloc, value),
        Stmt::Read(place) => single(alloc, Op::Read(copy_lval(alloc, place)?)),
        Stmt::Print(id) => single(alloc, Op::Print(*id)),
    }
}

/// The code of a block's statements.
#[cycle(lowering)]
fn block(
    items: &[Stmt],
    alloc: Global,
    opened: &Items<VarId>,
    at: usize,
) -> Result<Items<Draft>, AllocError>
    ensures { IfOk result (λ it. it ≡ block_draft items.now opened.now at) }
{
    let mut code = Items::new(alloc);
    let mut vars = Items::from_slice(alloc, opened.as_slice())?;
    for item in items {
        let place = after(at, code.len())?;
        code.append(statement(item, alloc, &vars, place)?)?;
        vars = with_declared(alloc, item, vars)?;
    }
    Ok(code)
}

/// The variables that the header of a `for` declares, latest first, before those of the loop around.
fn with_header(
    alloc: Global,
    first: &[Stmt],
    opened: &Items<VarId>,
) -> Result<Items<VarId>, AllocError>
    ensures { IfOk result (λ it. it ≡ block_declared first.now opened.now) }
{
    let outer = Items::from_slice(alloc, opened.as_slice())?;
    with_all_declared(alloc, first, outer)
}

/// A `for` with this header and the codes of its parts.
fn for_code(
    alloc: Global,
    id: Option<SlotId>,
    first: &[Stmt],
    at: usize,
    head: Items<Draft>,
    turn: Items<Draft>,
    last: Items<Draft>,
) -> Result<Items<Draft>, AllocError>
    ensures { IfOk result (λ it. it ≡ head ++ for_draft id (at + length head) turn last (block_declared first.now [])) }
{
    let test = after(at, head.len())?;
    let vars = with_all_declared(alloc, first, Items::new(alloc))?;
    let mut code = head;
    code.append(turns_code(alloc, id, test, turn, last, &vars)?)?;
    Ok(code)
}

/// An `if` without an `else`, with the code of its part.
fn if_code(
    alloc: Global,
    id: SlotId,
    at: usize,
    first: Items<Draft>,
) -> Result<Items<Draft>, AllocError>
    ensures { IfOk result (λ it. it ≡ if_draft id at first) }
{
    let end = after(after(at, 1)?, first.len())?;
    let mut code = single(alloc, Op::Test(id, end))?;
    code.append(first)?;
    Ok(code)
}

/// An `if` with the codes of its parts.
fn else_code(
    alloc: Global,
    id: SlotId,
    at: usize,
    first: Items<Draft>,
    second: Items<Draft>,
) -> Result<Items<Draft>, AllocError>
    ensures { IfOk result (λ it. it ≡ else_draft id at first second) }
{
    let other = after(after(after(at, 1)?, first.len())?, 1)?;
    let end = after(other, second.len())?;
    let mut code = single(alloc, Op::Test(id, other))?;
    code.append(first)?;
    code.push(Draft::Made(Op::Jump(end)))?;
    code.append(second)?;
    Ok(code)
}

/// A `while` with the code of its body.
fn while_code(
    alloc: Global,
    id: SlotId,
    at: usize,
    body: Items<Draft>,
) -> Result<Items<Draft>, AllocError>
    ensures { IfOk result (λ it. it ≡ while_draft id at body) }
{
    let mut turn = body;
    turn.push(Draft::Made(Op::Jump(at)))?;
    let end = after(after(at, 1)?, turn.len())?;
    fill(&mut turn, end, at);
    let mut code = single(alloc, Op::Test(id, end))?;
    code.append(turn)?;
    Ok(code)
}

/// A `do` with the code of its body.
fn do_code(
    alloc: Global,
    id: SlotId,
    at: usize,
    body: Items<Draft>,
) -> Result<Items<Draft>, AllocError>
    ensures { IfOk result (λ it. it ≡ do_draft id at body) }
{
    let test = after(at, body.len())?;
    let end = after(test, 2)?;
    let mut code = body;
    fill(&mut code, end, test);
    code.push(Draft::Made(Op::Test(id, end)))?;
    code.push(Draft::Made(Op::Jump(at)))?;
    Ok(code)
}

/// A `for` from its condition on, with the codes of its body and of its last part, and the variables of its header.
fn turns_code(
    alloc: Global,
    id: Option<SlotId>,
    test: usize,
    body: Items<Draft>,
    last: Items<Draft>,
    vars: &Items<VarId>,
) -> Result<Items<Draft>, AllocError>
    ensures { IfOk result (λ it. it ≡ for_draft id test body last vars.now) }
{
    let next = after(after(test, 1)?, body.len())?;
    let close = after(after(next, last.len())?, 1)?;
    let mut turn = body;
    fill(&mut turn, close, next);
    let mut code = single(alloc, test_op(id, close))?;
    code.append(turn)?;
    code.append(last)?;
    code.push(Draft::Made(Op::Jump(test)))?;
    end_all(&mut code, vars.as_slice())?;
    Ok(code)
}
