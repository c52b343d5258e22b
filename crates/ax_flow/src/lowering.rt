//! The code of functions and of all of a program.
ghost use Rattle.std.specs.Prelude.{◌≡◌, IfOk};
ghost use Rattle.ax_flow.specs.Drafts.{body_draft, fun_code as code_of_fun, funs_code, funs_starts};

use crate::ops::closed;
use crate::places::after;
use crate::statements::statement;
use crate::{Draft, Op};
use ax_prog::{Fun, Stmt};
use sqlite_items::Items;
use std::alloc::{AllocError, Global};

fn body_code(alloc: Global, body: &[Stmt], at: usize) -> Result<Items<Draft>, AllocError>
    ensures { IfOk result (λ it. it ≡ body_draft body.now at) }
{
    let mut code = Items::new(alloc);
    let none = Items::new(alloc);
    for stmt in body {
        let place = after(at, code.len())?;
        code.append(statement(stmt, alloc, &none, place)?)?;
    }
    Ok(code)
}

/// The code of a function from this place on.
fn fun_code(alloc: Global, body: &[Stmt], at: usize) -> Result<Items<Op>, AllocError>
    ensures { IfOk result (λ it. it ≡ code_of_fun body.now at) }
{
    let drafts = body_code(alloc, body, at)?;
    let end = after(at, drafts.len())?;
    let mut code = closed(alloc, drafts, end)?;
    code.push(Op::Fall)?;
    Ok(code)
}

/// The code of the functions one after another, and the places where they start.
pub fn code_of(alloc: Global, funs: &[Fun]) -> Result<(Items<Op>, Items<usize>), AllocError>
    ensures code { IfOk result (λ it. it.0 ≡ funs_code funs.now 0) }
    ensures starts { IfOk result (λ it. it.1 ≡ funs_starts funs.now 0) }
{
    let mut code = Items::new(alloc);
    let mut starts = Items::new(alloc);
    for fun in funs {
        let at = code.len();
        starts.push(at)?;
        code.append(fun_code(alloc, fun.body.as_slice(), at)?)?;
    }
    Ok((code, starts))
}
