//! A program with trees in some of its slots.
ghost use Rattle.std.specs.Prelude.{◌≡◌, IfOk};
ghost use Rattle.ax_space.specs.Patches.{with_trees};
ghost use Rattle.ax_space.specs.Fitting.{Fitting};

use ax_prog::copy::{copy_expr, copy_program};
use ax_prog::{Expr, Program, SlotId};
use std::alloc::{AllocError, Global};

pub fn put_trees(
    alloc: Global,
    program: &Program,
    ids: &[SlotId],
    trees: &[Expr],
) -> Result<Program, AllocError>
    requires { Fitting program.now ids.now trees.now }
    ensures { IfOk result (λ it. it ≡ with_trees program.now ids.now trees.now) }
{
    match ids {
        [] => {
            let whole = copy_program(alloc, program)?;
            Ok(whole)
        }
        [id, rest @ ..] => match trees {
            [] => {
                let whole = copy_program(alloc, program)?;
                Ok(whole)
            }
            [tree, others @ ..] => {
                let tree = copy_expr(alloc, tree)?;
                let next = program.substitute(alloc, *id, tree)?;
                let whole = put_trees(alloc, &next, rest, others)?;
                Ok(whole)
            }
        },
    }
}
