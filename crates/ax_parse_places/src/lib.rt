//! Where a source stops being the front of any source.
//!
//! A stack holds the parts of a source that are still to come. Each token either takes the next one, or the source stops there.
#![tactic(auto)]

ghost use Rattle.std.specs.Prelude.{◌≡◌, ℕ, ◌+◌, ◌≤◌, ◌<◌, IfOk, length, take};
ghost use Rattle.ax_parse_places.specs.Fronts.{BeginsNone};

mod declarations;
mod expressions;
mod kinds;
mod sources;
mod stack;
mod statements;
mod symbols;
mod turns;

use ax_prog::tokens::Token;
use sqlite_items::Items;
use std::alloc::{AllocError, Global};
use symbols::Symbol;
use turns::step;

/// How many tokens stand before the first one that can't go on: no source begins with these and that one. All of them, where
/// there is none.
pub fn place(alloc: Global, tokens: &[Token]) -> Result<usize, AllocError>
    ensures within { IfOk result (λ n. n ≤ length tokens.now) }
    ensures stops { IfOk result (λ n. n < length tokens.now → BeginsNone (take (n + 1) tokens.now)) }
{
    let mut stack = Items::new(alloc);
    stack.push(Symbol::Parts)?;
    let mut at = 0;
    while at < tokens.len() {
        if !step(&mut stack, &tokens[at].kind)? {
            return Ok(at);
        }
        at += 1;
    }
    Ok(at)
}
