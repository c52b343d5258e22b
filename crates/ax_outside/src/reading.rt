//! A file read whole, in pieces.
ghost use Rattle.std.specs.Prelude.{◌≡◌, ◌≤◌, ◌<◌, IfOk, IsErrOf, length};
ghost use Rattle.ax_outside.specs.Seen.{IsWhole, NoLess, OnKept, Rose, Same};
ghost use Rattle.ax_outside.specs.declared.reading.ReadFault.TheVariants.{Memory};

use crate::{Failed, Shelf};
use std::alloc::{AllocError, Global};
use thiserror::Error;

/// Why a file wasn't read whole.
#[derive(Clone, Copy, Debug, PartialEq, Eq, Error)]
pub enum ReadFault {
    #[error("the file has more bytes than the limit")]
    TooLong,
    #[error("a read failed")]
    Failed,
    #[error("out of memory")]
    Memory,
}

impl From<AllocError> for ReadFault {
    ghost from_gives = { λ _ e. e ≡ Memory };

    fn from(_: AllocError) -> Self {
        ReadFault::Memory
    }
}

// How many bytes are asked for at a time.
const PIECE: usize = 4096;

/// The bytes of a file that has at most `limit` of them, read in pieces of 4,096.
///
/// No more than one piece past the limit is taken, so a file without an end is `TooLong` too.
pub fn read_all<S: Shelf>(
    alloc: Global,
    shelf: &mut S,
    name: &str,
    limit: u64,
) -> Result<Vec<u8>, ReadFault>
    requires { limit ≤ 268435456 }
    ensures bytes { IfOk result (λ v. OnKept ((S.seen shelf.old).kept name.now) (λ file. IsWhole file v.items limit)) }
    ensures short { IfOk result (λ v. length v.items ≤ limit) }
    ensures too_long { IsErrOf result ReadFault.TooLong → OnKept ((S.seen shelf.old).kept name.now) (λ file. limit < length file) }
    ensures failed { IsErrOf result ReadFault.Failed → Rose ((S.seen shelf.old).reads name.now) ((S.seen shelf.new).reads name.now) }
    ensures same { Same (S.seen shelf.old) (S.seen shelf.new) }
    ensures counts { NoLess (S.seen shelf.old) (S.seen shelf.new) }
{
    let mut bytes = Vec::new(alloc);
    let mut piece = [0; PIECE];
    'pieces: while bytes.len() as u64 <= limit {
        let count = match shelf.read(name, bytes.len() as u64, &mut piece) {
            Ok(count) => count,
            Err(Failed) => return Err(ReadFault::Failed),
        };
        if count == 0 {
            return Ok(bytes);
        }
        bytes.extend_from_slice(&piece[..count])?;
    }
    Err(ReadFault::TooLong)
}
