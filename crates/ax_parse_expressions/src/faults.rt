//! Why nothing is read.
use std::alloc::AllocError;

#[derive(Clone, Copy, PartialEq, Eq, Debug)]
pub enum ReadFault {
    Memory,
    /// What is looked for doesn't stand there. The number counts the tokens before the first one that can't go on.
    Syntax(usize),
}

impl From<AllocError> for ReadFault {
    ghost use Rattle.std.specs.Prelude.{◌≡◌};
    ghost use Rattle.ax_parse_expressions.specs.declared.faults.ReadFault.TheVariants.{Memory};

    ghost from_gives = { λ _ e. e ≡ Memory };

    fn from(_: AllocError) -> ReadFault {
        ReadFault::Memory
    }
}
