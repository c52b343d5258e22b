//! Programs that carry their flat code.
ghost use Rattle.std.specs.Prelude.{◌≡◌, ℤ, List, IfOk};
ghost use Rattle.std.proofs.Props.{props};
ghost use Rattle.ax_meaning.specs.Acts.{Setting};
ghost use Rattle.ax_meaning.specs.Runs.{outcome_of};
ghost use Rattle.ax_flow.specs.Drafts.{flat_code, flat_starts};
ghost use Rattle.ax_flow.specs.Flat.{IsFlat};
ghost use Rattle.ax_flow.specs.Machine.{Comes, final_of, start};

use crate::Op;
use crate::lowering::code_of;
use ax_prog::Program;
use ax_prog::copy::copy_program;
use sqlite_items::Items;
use std::alloc::{AllocError, Global};

/// A program, its flat code, and the place where the code of each function starts.
#[derive(Drop)]
pub struct Flow {
    pub program: Program,
    pub code: Items<Op>,
    pub starts: Items<usize>,
    pub ghost code_is: { code ≡ flat_code program } by { Prim.hlevel props },
    pub ghost starts_are: { starts ≡ flat_starts program } by { Prim.hlevel props },
}

impl Flow {
    /// The code is the flat code of the program, and its run comes to what the program's does, however slots take their
    /// values (a law).
    pub fn runs_as_its_program(&self)
        ensures flat { IsFlat self.now.program self.now.code self.now.starts }
        ensures runs { (how : Setting) (inputs : List ℤ) → how.program ≡ self.now.program → Comes how self.now.code self.now.starts (final_of (outcome_of how inputs)) (start how self.now.starts inputs) }
    {}
}

/// The flat code of a program, with a copy of the program. Code with a place that is no number of the machine fits no
/// memory, and is answered as want of memory.
pub fn lower(alloc: Global, program: &Program) -> Result<Flow, AllocError>
    ensures { IfOk result (λ flow. flow.program ≡ program.now) }
{
    let program = copy_program(alloc, program)?;
    let (code, starts) = code_of(alloc, program.funs.as_slice())?;
    Ok(Flow {
        program,
        code,
        starts,
    })
}
