//! A shelf with a file that never ends.
ghost use Rattle.std.specs.Prelude.{◌≡◌, ◌≢◌, Ok, length, replicate};
ghost use Rattle.std.specs.String.{string_bytes};
ghost use Rattle.std.specs.Io.{ReadsAtMost};
ghost use Rattle.ax_outside.specs.Seen.{Print, Put, Read, untold};
ghost use Rattle.ax_outside.specs.Memory.{PrintsText, PutsFile, ReadsKept};

use crate::{Failed, MemShelf, Shelf};

/// A shelf for tests that has spaces at every place of one file, from its start on and without an end.
///
/// Every other call goes to the shelf inside. It tells no bytes, and fails only where the shelf inside fails.
#[derive(Drop)]
pub struct Endless {
    pub inner: MemShelf,
    pub name: String,
}

impl Shelf for Endless {
    ghost seen = { λ s. untold s.inner.faults };

    fn read(&mut self, name: &str, from: u64, into: &mut [u8]) -> Result<usize, Failed>
        ensures bound { ReadsAtMost result into.new }
        ensures read { Read (untold self.old.inner.faults) (untold self.new.inner.faults) name.now from into.new result }
        ensures count { name.now ≡ string_bytes self.old.name → result ≡ Ok (length into.old) }
        ensures spaces { name.now ≡ string_bytes self.old.name → into.new ≡ replicate (length into.old) 32 }
        ensures stays { name.now ≡ string_bytes self.old.name → self.new ≡ self.old }
        ensures others { name.now ≢ string_bytes self.old.name → ReadsKept self.old.inner self.new.inner name.now from into.new result }
        ensures keeps { self.new.name ≡ self.old.name }
    {
        if name == self.name.as_str() {
            into.fill(b' ');
            return Ok(into.len());
        }
        self.inner.read(name, from, into)
    }

    fn put(&mut self, name: &str, bytes: &[u8]) -> Result<(), Failed>
        ensures put { Put (untold self.old.inner.faults) (untold self.new.inner.faults) name.now bytes.now result }
        ensures exact { PutsFile self.old.inner self.new.inner name.now bytes.now result }
        ensures keeps { self.new.name ≡ self.old.name }
    {
        self.inner.put(name, bytes)
    }

    fn print(&mut self, bytes: &[u8]) -> Result<(), Failed>
        ensures print { Print (untold self.old.inner.faults) (untold self.new.inner.faults) bytes.now result }
        ensures exact { PrintsText self.old.inner self.new.inner bytes.now result }
        ensures keeps { self.new.name ≡ self.old.name }
    {
        self.inner.print(bytes)
    }
}
