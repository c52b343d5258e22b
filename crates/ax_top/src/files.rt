//! The files of an order.
ghost use Rattle.std.specs.Prelude.{◌≡◌, ◌≤◌, IfOk, length};
ghost use Rattle.ax_outside.specs.Seen.{NoLess, Same};
ghost use Rattle.ax_top.specs.Files.{FileRead, limit_of};

use ax_front::SourceFault;
use ax_outside::{ReadFault, Shelf, read_all};
use ax_suite::SuiteFault;
use std::alloc::Global;

/// The files that an order reads.
#[derive(Clone, Copy, Debug, PartialEq, Eq)]
pub enum File {
    Source,
    Tests,
    Cert,
}

/// Why an order came to no result.
#[derive(Clone, Copy, Debug, PartialEq, Eq)]
pub enum Stop {
    Memory,
    /// No ranker has the name that the order needs.
    NoRanker,
    ReadFailed(File),
    TooLong(File),
    /// The source spells no program within the limits.
    Source(SourceFault),
    Suite(SuiteFault),
    /// The picked number is greater than the number of candidates.
    NoCandidate { picked: u32, count: usize },
    /// What the order asks for isn't built yet.
    NotBuilt,
}

/// How many bytes a file has at most.
pub fn limit_of(file: File) -> u64
    ensures limit { result ≡ limit_of file }
    ensures most { result ≤ 268435456 }
{
    match file {
        File::Source => 1_048_576,
        File::Tests => 1_048_576,
        File::Cert => 268_435_456,
    }
}

/// A file's bytes.
pub fn read_file<S: Shelf>(
    alloc: Global,
    shelf: &mut S,
    name: &str,
    file: File,
) -> Result<Vec<u8>, Stop>
    ensures read { FileRead (S.seen shelf.old) (S.seen shelf.new) name.now file result }
    ensures short { IfOk result (λ v. length v.items ≤ limit_of file) }
    ensures same { Same (S.seen shelf.old) (S.seen shelf.new) }
    ensures counts { NoLess (S.seen shelf.old) (S.seen shelf.new) }
{
    match read_all(alloc, shelf, name, limit_of(file)) {
        Ok(bytes) => Ok(bytes),
        Err(ReadFault::Memory) => Err(Stop::Memory),
        Err(ReadFault::TooLong) => Err(Stop::TooLong(file)),
        Err(ReadFault::Failed) => Err(Stop::ReadFailed(file)),
    }
}
