//! What a shelf is.
ghost use Rattle.std.specs.Prelude.{◌≤◌};
ghost use Rattle.std.specs.Io.{ReadsAtMost};
ghost use Rattle.ax_outside.specs.Seen.{Seen, Read, Put, Print};

use thiserror::Error;

/// A call of a shelf failed. The shelf has counted the fault.
#[derive(Clone, Copy, Debug, PartialEq, Eq, Error)]
#[error("the outside refused a call")]
pub struct Failed;

/// Files by name, and a stream that is printed to.
///
/// A shelf may tell the bytes under a name and the bytes printed so far, or leave them untold. It counts its faults
/// in numbers that never fall: of reads and of puts under each name, and of prints. A call answers [`Failed`] only
/// where its own count rose in it, or stands at 18446744073709551615 already.
pub trait Shelf {
    ghost seen: { Self → Seen };

    /// Writes bytes of a file, from its byte `from` on (counted from 0), to the front of `into`, and answers how many.
    ///
    /// At least one byte comes where there is one and `into` isn't empty, so 0 is the end of the file. A missing file
    /// is a fault. What is kept and printed stays.
    fn read(&mut self, name: &str, from: u64, into: &mut [u8]) -> Result<usize, Failed>
        requires { from ≤ 268435456 }
        ensures bound { ReadsAtMost result into.new }
        ensures read { Read (seen self.old) (seen self.new) name.now from into.new result };

    /// Makes `name` hold `bytes` in place of what it held.
    ///
    /// After a fault it holds what it held, or a prefix of `bytes`. Other names and what was printed stay.
    fn put(&mut self, name: &str, bytes: &[u8]) -> Result<(), Failed>
        ensures { Put (seen self.old) (seen self.new) name.now bytes.now result };

    /// Prints `bytes` after those printed before.
    ///
    /// After a fault a prefix of them was printed. The files stay.
    fn print(&mut self, bytes: &[u8]) -> Result<(), Failed>
        ensures { Print (seen self.old) (seen self.new) bytes.now result };
}
