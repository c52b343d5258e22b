//! Why a token list is refused.
use std::alloc::AllocError;

#[derive(Clone, Copy, PartialEq, Eq, Debug)]
pub enum ParseFault {
    Memory,
    /// The measure of nesting first exceeds 200 behind the token that starts there.
    TooDeep(usize),
    /// No tree is spelled. There starts the first token that can't go on, or ends the last one.
    Syntax(usize),
    /// There starts the first call that stands inside an expression.
    CallInside(usize),
    /// There starts the first part that the rule `expr` spells and that has more than 400 nodes.
    ExprTooLarge(usize),
}

impl From<AllocError> for ParseFault {
    ghost use Rattle.std.specs.Prelude.{◌≡◌};
    ghost use Rattle.ax_parse.specs.declared.faults.ParseFault.TheVariants.{Memory};

    ghost from_gives = { λ _ e. e ≡ Memory };

    fn from(_: AllocError) -> ParseFault {
        ParseFault::Memory
    }
}
