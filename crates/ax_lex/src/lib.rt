//! The tokens of a source.
//!
//! [`lex`] reads bytes as spaces, comments, includes and tokens, of which it takes the longest each time (C11 6.4p4). Where
//! C joins lines, reads trigraphs or takes more bytes into a number, so that it might read other tokens, this lexer stops
//! with a fault or takes the bytes as they are; the definitions in `specs/Pieces` and `specs/Faults` say which.
#![tactic(auto)]

mod classes;
mod front;
mod layout;
mod numbers;
mod tables;
mod words;

ghost use Rattle.std.specs.Prelude.{◌≡◌, ◌≤◌, ◌<◌, ◌^◌, length, IfOk, IfErr, ◌⊎◌};
ghost use Rattle.ax_lex.specs.Pieces.{SpellsTokens, IsOnlyList};
ghost use Rattle.ax_lex.specs.Faults.{Faulty, IsOnlyFault, IsUnspelled};

use ax_prog::Span;
use ax_prog::tokens::Token;
use classes::past;
use front::{Front, first};
use sqlite_items::Items;
use std::alloc::{AllocError, Global};
pub use tables::{FORMATS, KEYWORDS, MARKS};

/// How many tokens a source has at most.
pub const MAX_TOKENS: usize = 20_000;

/// Why bytes are no tokens, and at which byte.
#[derive(Clone, Copy, PartialEq, Eq, Debug)]
pub enum LexFault {
    /// Memory was wanting.
    Memory,
    /// A byte with which no token begins, or that spoils the number, or goes on with the comment, before it.
    BadByte(usize),
    /// A `/*` without an end.
    OpenComment(usize),
    /// A number above 2147483647.
    NumberTooLarge(usize),
    /// Token 20,001.
    TooManyTokens(usize),
}

impl From<AllocError> for LexFault {
    ghost use Rattle.std.specs.Prelude.{◌≡◌};
    ghost use Rattle.ax_lex.specs.declared.LexFault.TheVariants.{Memory};

    ghost from_gives = { λ _ e. e ≡ Memory };

    fn from(_: AllocError) -> LexFault {
        LexFault::Memory
    }
}

/// The tokens that the bytes spell, 20,000 at most, or the first fault.
pub fn lex(alloc: Global, bytes: &[u8]) -> Result<Items<Token>, LexFault>
    requires { length bytes.now < 2 ^ 32 }
    ensures spelled { IfOk result (λ tokens. SpellsTokens bytes.now tokens) }
    ensures few { IfOk result (λ tokens. length tokens ≤ MAX_TOKENS) }
    ensures only { IfOk result (λ tokens. IsOnlyList bytes.now tokens) }

    ensures fault { IfErr result (λ e. (e ≡ LexFault.Memory) ⊎ Faulty bytes.now e) }
    ensures only_fault { IfErr result (λ e. (e ≡ LexFault.Memory) ⊎ IsOnlyFault bytes.now e) }
    ensures unspelled { IfErr result (λ e. (e ≡ LexFault.Memory) ⊎ IsUnspelled bytes.now) }
{
    let mut tokens = Items::new(alloc);
    let mut at = 0;
    let mut fresh = true;
    while at < bytes.len() {
        let found = first(alloc, past(bytes, at), at, fresh, tokens.len())?;
        match found {
            Front::Layout(n, next) => {
                at += n;
                fresh = next;
            }
            Front::Word(kind, n) => {
                if tokens.len() >= MAX_TOKENS {
                    return Err(LexFault::TooManyTokens(at));
                }
                let span = Span {
                    from: at as u32,
                    to: (at + n) as u32,
                };
                tokens.push(Token { kind, span })?;
                at += n;
                fresh = false;
            }
        }
    }
    Ok(tokens)
}
