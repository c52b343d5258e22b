//! Stacks of parts that are still to come. The part that comes first stands last.
ghost use Rattle.std.specs.Prelude.{◌≡◌, true, ◌++◌, reverse, Some, IfOk, OnOk};
ghost use Rattle.ax_parse_places.specs.Turns.{moved};

use crate::symbols::Symbol;
use sqlite_items::Items;
use std::alloc::AllocError;

/// Puts parts on the stack: the first of them comes first.
pub fn push(stack: &mut Items<Symbol>, parts: &[Symbol]) -> Result<(), AllocError>
    ensures { OnOk result (reverse stack.new ≡ parts.now ++ reverse stack.old) }
{
    let mut at = parts.len();
    while at > 0 {
        at -= 1;
        stack.push(parts[at])?;
    }
    Ok(())
}

/// Puts parts on the stack, as a token was taken.
pub fn taken(stack: &mut Items<Symbol>, parts: &[Symbol]) -> Result<bool, AllocError>
    ensures moved { IfOk result (λ b. moved b stack.new ≡ Some (parts.now ++ reverse stack.old)) }
    ensures taken { IfOk result (λ b. b ≡ true) }
{
    push(stack, parts)?;
    Ok(true)
}
