//! Programs and expressions, read from their texts.

ghost use Rattle.std.specs.Prelude.{IfOk};
ghost use Rattle.ax_front.specs.Texts.{IsProgramOfText};

use ax_front::read_source;
use ax_prog::copy::copy_expr;
use ax_prog::{Expr, Program, Sets};
use std::alloc::Global;
use std::test::Fail;

pub const COMPARISONS: Sets = Sets {
    cmp: true,
    logic: false,
    arith: false,
    mul: false,
    bits: false,
    vars: false,
    consts: false,
    guard: false,
};

/// The program of a source of the first form.
pub fn program_of(alloc: Global, source: &str) -> Result<Program, Fail>
    ensures { IfOk result (IsProgramOfText source.now) }
{
    let bytes = source.as_bytes();
    if bytes.len() > 1000 {
        return Err(Fail::from("too long"));
    }
    match read_source(alloc, bytes) {
        Ok(program) => Ok(program),
        Err(_) => Err(Fail::from("refused")),
    }
}

/// A source with this condition on the variables `x` and `y`, numbered 0 and 1. The condition is its first candidate.
pub fn with_condition(alloc: Global, condition: &str) -> Result<String, Fail> {
    let source = format!(in alloc;
        "int main() {{ int x; int y; if ({condition}) printf(\"%d\", 1); return 0; }}"
    )?;
    Ok(source)
}

/// The tree of an expression.
pub fn tree_of(alloc: Global, text: &str) -> Result<Expr, Fail> {
    let source = with_condition(alloc, text)?;
    let program = program_of(alloc, &source)?;
    let slot = program.slots.get(0).ok_or("no expression")?;
    Ok(copy_expr(alloc, &slot.expr)?)
}
