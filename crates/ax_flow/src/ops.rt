//! Code that holds no statement, and open jumps that get their places.
ghost use Rattle.std.specs.Prelude.{◌≡◌, ◌++◌, ◌∷◌, [], IfOk, OnOk, ◌<◌, IfSome, length, map, reverse, slice_get, slice_set};
ghost use Rattle.ax_meaning.specs.Execution.{declared_by};
ghost use Rattle.ax_flow.specs.Flat.{assign_code as code_of_assign, decl_code as code_of_decl, return_code as code_of_return, test_op as op_of_test};
ghost use Rattle.ax_flow.specs.Drafts.{filled, made, ends_draft, block_declared, closed as closed_by};
ghost use Rattle.ax_flow.specs.declared.Draft.TheVariants.{Made};

use crate::{Draft, Op, Rhs};
use ax_prog::copy::{copy_args, copy_init, copy_lval, copy_pexpr};
use ax_prog::{Init, Lval, SlotId, Stmt, Value, VarId};
use sqlite_items::Items;
use std::alloc::{AllocError, Global};

/// One op.
pub fn single(alloc: Global, op: Op) -> Result<Items<Draft>, AllocError>
    ensures { IfOk result (λ it. it ≡ Made op ∷ []) }
{
    let draft = Draft::Made(op);
    let mut code = Items::new(alloc);
    code.push(draft)?;
    Ok(code)
}

/// An assignment; a call is made before it.
pub fn assign_code(alloc: Global, place: &Lval, value: &Value) -> Result<Items<Draft>, AllocError>
    ensures { IfOk result (λ it. it ≡ made (code_of_assign place.now value.now)) }
{
    let place = copy_lval(alloc, place)?;
    match value {
        Value::Int(id) => single(alloc, Op::Assign(place, Rhs::Int(*id))),
        Value::Ptr(q) => single(alloc, Op::Assign(place, Rhs::Ptr(copy_pexpr(alloc, q)?))),
        Value::Call(f, args) => {
            let mut code = single(alloc, Op::Call(*f, copy_args(alloc, args.as_slice())?))?;
            code.push(Draft::Made(Op::Assign(place, Rhs::Last)))?;
            Ok(code)
        }
    }
}

/// A declaration; a call is the value of the variable that stands declared.
pub fn decl_code(alloc: Global, id: VarId, init: &Init) -> Result<Items<Draft>, AllocError>
    ensures { IfOk result (λ it. it ≡ made (code_of_decl id init.now)) }
{
    match init {
        Init::Value(Value::Call(f, args)) => {
            let args = copy_args(alloc, args.as_slice())?;
            let mut code = single(alloc, Op::Decl(id, Init::Nothing))?;
            code.push(Draft::Made(Op::Call(*f, args)))?;
            code.push(Draft::Made(Op::Keep(id)))?;
            Ok(code)
        }
        Init::Value(Value::Int(slot)) => {
            single(alloc, Op::Decl(id, Init::Value(Value::Int(*slot))))
        }
        Init::Value(Value::Ptr(q)) => {
            let q = copy_pexpr(alloc, q)?;
            single(alloc, Op::Decl(id, Init::Value(Value::Ptr(q))))
        }
        Init::Nothing => single(alloc, Op::Decl(id, Init::Nothing)),
        Init::List(numbers) => {
            let numbers = Items::from_slice(alloc, numbers.as_slice())?;
            single(alloc, Op::Decl(id, Init::List(numbers)))
        }
    }
}

/// A `return`; a call is made before it.
pub fn return_code(alloc: Global, value: &Option<Value>) -> Result<Items<Draft>, AllocError>
    ensures { IfOk result (λ it. it ≡ made (code_of_return value.now)) }
{
    match value {
        None => single(alloc, Op::Return(None)),
        Some(Value::Int(id)) => single(alloc, Op::Return(Some(Rhs::Int(*id)))),
        Some(Value::Ptr(q)) => single(alloc, Op::Return(Some(Rhs::Ptr(copy_pexpr(alloc, q)?)))),
        Some(Value::Call(f, args)) => {
            let mut code = single(alloc, Op::Call(*f, copy_args(alloc, args.as_slice())?))?;
            code.push(Draft::Made(Op::Return(Some(Rhs::Last))))?;
            Ok(code)
        }
    }
}

/// The condition of a `for`, which goes to this place where it doesn't hold.
pub fn test_op(id: Option<SlotId>, to: usize) -> Op
    ensures { result ≡ op_of_test id to }
{
    match id {
        None => Op::Always,
        Some(id) => Op::Test(id, to),
    }
}

/// Adds the ends of these variables.
pub fn end_all(code: &mut Items<Draft>, vars: &[VarId]) -> Result<(), AllocError>
    ensures { OnOk result (code.new ≡ code.old ++ ends_draft vars.now) }
{
    for var in vars {
        code.push(Draft::Made(Op::End(*var)))?;
    }
    Ok(())
}

/// The ends of these variables, and then an open jump.
pub fn ends_and(alloc: Global, vars: &Items<VarId>, jump: Draft) -> Result<Items<Draft>, AllocError>
    ensures { IfOk result (λ it. it ≡ ends_draft vars.now ++ jump ∷ []) }
{
    let mut code = Items::new(alloc);
    end_all(&mut code, vars.as_slice())?;
    code.push(jump)?;
    Ok(code)
}

/// The variables declared after a statement, latest first.
pub fn with_declared(
    alloc: Global,
    stmt: &Stmt,
    vars: Items<VarId>,
) -> Result<Items<VarId>, AllocError>
    ensures { IfOk result (λ it. it ≡ declared_by stmt.now vars) }
{
    match stmt {
        Stmt::Decl(id, _) => {
            let mut all = Items::from_slice(alloc, &[*id])?;
            all.append(vars)?;
            Ok(all)
        }
        Stmt::Empty
        | Stmt::Block(_)
        | Stmt::Assign(_, _)
        | Stmt::Change(_, _, _)
        | Stmt::Bump(_, _)
        | Stmt::Call(_, _)
        | Stmt::If(_, _, _)
        | Stmt::While(_, _)
        | Stmt::Do(_, _)
        | Stmt::For(_, _, _, _)
        | Stmt::Break
        | Stmt::Continue
        | Stmt::Return(_)
        | Stmt::Read(_)
        | Stmt::Print(_) => Ok(vars),
    }
}

/// The variables that these statements declare, latest first, before those declared already.
pub fn with_all_declared(
    alloc: Global,
    items: &[Stmt],
    vars: Items<VarId>,
) -> Result<Items<VarId>, AllocError>
    ensures { IfOk result (λ it. it ≡ block_declared items.now vars) }
{
    let mut all = vars;
    for item in items {
        all = with_declared(alloc, item, all)?;
    }
    Ok(all)
}

fn fill_one(code: &mut Items<Draft>, at: usize, broke: usize, continued: usize)
    requires { at < length code.old }
    ensures { IfSome (slice_get code.old at) (λ draft. code.new ≡ slice_set code.old at (filled broke continued draft)) }
{
    match code.get(at) {
        None => {}
        Some(draft) => match draft {
            Draft::Made(_) => {}
            Draft::Breaks => code.set(at, Draft::Made(Op::Jump(broke))),
            Draft::Continues => code.set(at, Draft::Made(Op::Jump(continued))),
        },
    }
}

/// Gives the open jumps of a loop's body their places.
pub fn fill(code: &mut Items<Draft>, broke: usize, continued: usize)
    ensures { code.new ≡ map (filled broke continued) code.old }
{
    for at in 0..code.len() {
        fill_one(code, at, broke, continued);
    }
}

fn closed_one(draft: Draft, end: usize) -> Op
    ensures { result ≡ closed_by end draft }
{
    match draft {
        Draft::Made(op) => op,
        Draft::Breaks => Op::Jump(end),
        Draft::Continues => Op::Jump(end),
    }
}

/// The ops from the last to the first, where each jump that is still open goes to this place.
fn closed_backwards(
    alloc: Global,
    drafts: Items<Draft>,
    end: usize,
) -> Result<Items<Op>, AllocError>
    ensures { IfOk result (λ it. it ≡ reverse (map (closed_by end) drafts)) }
{
    let mut left = drafts;
    let mut ops = Items::new(alloc);
    'drafts: while let Some(draft) = left.pop() {
        ops.push(closed_one(draft, end))?;
    }
    Ok(ops)
}

fn turned(alloc: Global, ops: Items<Op>) -> Result<Items<Op>, AllocError>
    ensures { IfOk result (λ it. it ≡ reverse ops) }
{
    let mut left = ops;
    let mut all = Items::new(alloc);
    'ops: while let Some(op) = left.pop() {
        all.push(op)?;
    }
    Ok(all)
}

/// The ops, where each jump that is still open goes to this place.
pub fn closed(alloc: Global, drafts: Items<Draft>, end: usize) -> Result<Items<Op>, AllocError>
    ensures { IfOk result (λ it. it ≡ map (closed_by end) drafts) }
{
    let ops = closed_backwards(alloc, drafts, end)?;
    turned(alloc, ops)
}
