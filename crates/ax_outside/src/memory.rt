//! A shelf in memory.
ghost use Rattle.std.specs.Prelude.{◌≡◌, ◌≤◌, ◌+◌, ◌++◌, ◌∷◌, [], OnOk, OnErr, if◌then◌else◌, length, max, option_map};
ghost use Rattle.std.specs.Io.{ReadsAtMost};
ghost use Rattle.ax_outside.specs.Seen.{Put, Print, Read};
ghost use Rattle.ax_outside.specs.Memory.{PrintsText, PutsFile, ReadsKept, counted, failed, has_room, is_due, kept_in, one_more, print_part, put_part, seen_of, torn_at, with_file, with_text};

use crate::files::{Entry, add_file, append, copy_from, find, reserve};
use crate::{Failed, Shelf};
use std::alloc::{AllocError, Global};
use std::marker::Model;

// The call that is to fail after it left its first bytes.
#[derive(Clone, Copy, Drop)]
pub(crate) struct Tear {
    pub(crate) call: u64,
    pub(crate) kept: usize,
}

/// Files and printed bytes in memory, with a list of calls that are to fail, for tests.
///
/// Its calls of [`Shelf`] take no memory: a put uses one call of the room made before and the bytes of its name and
/// content, a print one call and its bytes. A call fails exactly where its number is among those that are to fail
/// (from 1, over all three calls), a read's name isn't kept, or the room is too small. It then changes nothing but
/// the counts of calls and of faults, unless it is torn. It tells all its bytes.
#[derive(Drop)]
pub struct MemShelf {
    log: Vec<u8>,
    files: Vec<Entry>,
    printed: Vec<u8>,
    fails: Vec<u64>,
    tears: Vec<Tear>,
    calls: u64,
    faults: u64,
    calls_left: usize,
    bytes_left: usize,
}

impl Model for MemShelf {
    ghost use Rattle.ax_outside.specs.Memory.{Shelved};

    ghost Value = { Shelved };

    ghost use Rattle.ax_outside.specs.Files.{files_of, IsStored};

    ghost view = { λ s. record {
      files = files_of s.log.items s.files.items;
      printed = s.printed.items;
      fails = s.fails.items;
      tears = s.tears.items;
      calls = s.calls;
      faults = s.faults;
      calls_left = s.calls_left;
      bytes_left = s.bytes_left;
    } };

    ghost invariant = { λ s. IsStored s.log s.files s.printed s.calls_left s.bytes_left };
}

impl MemShelf {
    /// A shelf that keeps nothing, has no room and fails at no call.
    pub fn new(alloc: Global) -> MemShelf
        ensures { result ≡ record { files = []; printed = []; fails = []; tears = []; calls = 0; faults = 0; calls_left = 0; bytes_left = 0 } }
    {
        MemShelf {
            log: Vec::new(alloc),
            files: Vec::new(alloc),
            printed: Vec::new(alloc),
            fails: Vec::new(alloc),
            tears: Vec::new(alloc),
            calls: 0,
            faults: 0,
            calls_left: 0,
            bytes_left: 0,
        }
    }

    /// Keeps `bytes` under `name`. This is no call of the shelf, and uses none of the room.
    pub fn keep(&mut self, name: &str, bytes: &[u8]) -> Result<(), AllocError>
        ensures ok { OnOk result (self.new ≡ record self.old { files = record { name = name.now; bytes = bytes.now } ∷ self.old.files }) }
        ensures err { OnErr result (self.new ≡ self.old) }
    {
        reserve(&mut self.log, name.len(), bytes.len(), self.bytes_left)?;
        let Some(calls) = self.calls_left.checked_add(1) else {
            return Err(AllocError);
        };
        self.files.reserve(calls)?;
        add_file(&mut self.log, &mut self.files, name.as_bytes(), bytes);
        Ok(())
    }

    /// Makes that call fail. Calls are counted from 1, over all three calls of [`Shelf`].
    pub fn fail(&mut self, call: u64) -> Result<(), AllocError>
        ensures ok { OnOk result (self.new ≡ record self.old { fails = self.old.fails ++ call ∷ [] }) }
        ensures err { OnErr result (self.new ≡ self.old) }
    {
        self.fails.push(call)?;
        Ok(())
    }

    /// Makes that call fail, but a put or a print then leaves its first `kept` bytes, or all where there are fewer.
    ///
    /// Of several tears of one call the last one made holds, also where [`MemShelf::fail`] names that call.
    pub fn tear(&mut self, call: u64, kept: usize) -> Result<(), AllocError>
        ensures ok { OnOk result (self.new ≡ record self.old { tears = record { call = call; kept = kept } ∷ self.old.tears }) }
        ensures err { OnErr result (self.new ≡ self.old) }
    {
        self.tears.insert(0, Tear { call, kept })?;
        Ok(())
    }

    /// Makes at least so much room for puts and prints, in calls and in bytes.
    pub fn room(&mut self, calls: usize, bytes: usize) -> Result<(), AllocError>
        ensures ok { OnOk result (self.new ≡ record self.old { calls_left = max self.old.calls_left calls; bytes_left = max self.old.bytes_left bytes }) }
        ensures err { OnErr result (self.new ≡ self.old) }
    {
        let calls = self.calls_left.max(calls);
        let bytes = self.bytes_left.max(bytes);
        self.files.reserve(calls)?;
        self.log.reserve(bytes)?;
        self.printed.reserve(bytes)?;
        self.calls_left = calls;
        self.bytes_left = bytes;
        Ok(())
    }

    /// The bytes kept under that name.
    pub fn bytes(&self, name: &str) -> Option<&[u8]>
        ensures { option_map (λ b. b.now) result ≡ kept_in self.now.files name.now }
    {
        find(&self.log, &self.files, name.as_bytes())
    }

    /// All that was printed.
    pub fn printed(&self) -> &[u8]
        ensures { result.now ≡ self.now.printed }
    {
        self.printed.as_slice()
    }

    /// How many calls failed, at most 18446744073709551615.
    pub fn faults(&self) -> u64
        ensures { result ≡ self.now.faults }
    {
        self.faults
    }
}

// What the newest tear of that call leaves.
fn first_tear(tears: &[Tear], call: u64) -> Option<usize>
    ensures { result ≡ torn_at tears.now call }
{
    let mut rest = tears;
    while let [first, after @ ..] = rest {
        if first.call == call {
            return Some(first.kept);
        }
        rest = after;
    }
    None
}

impl MemShelf {
    fn torn(&self) -> Option<usize>
        ensures { result ≡ torn_at self.now.tears (one_more self.now.calls) }
    {
        first_tear(&self.tears, self.calls.saturating_add(1))
    }

    fn is_due(&self) -> bool
        ensures { result ≡ is_due self.now }
    {
        self.torn().is_some() || self.fails.contains(&self.calls.saturating_add(1))
    }

    fn count(&mut self)
        ensures { self.new ≡ counted self.old }
    {
        self.calls = self.calls.saturating_add(1);
    }

    fn fault(&mut self) -> Failed
        ensures after { self.new ≡ failed self.old }
        ensures rises { self.old.faults ≤ self.new.faults }
    {
        self.calls = self.calls.saturating_add(1);
        self.faults = self.faults.saturating_add(1);
        Failed
    }

    // Writes a file where there is room for it.
    fn write_file(&mut self, name: &str, bytes: &[u8]) -> bool
        ensures room { result ≡ has_room self.old (length name.now + length bytes.now) }
        ensures after { self.new ≡ (if result then with_file self.old name.now bytes.now else self.old) }
    {
        let Some(needed) = name.len().checked_add(bytes.len()) else {
            return false;
        };
        if self.calls_left == 0 || self.bytes_left < needed {
            return false;
        }
        add_file(&mut self.log, &mut self.files, name.as_bytes(), bytes);
        self.calls_left -= 1;
        self.bytes_left -= needed;
        true
    }

    // Prints where there is room for it.
    fn write_text(&mut self, bytes: &[u8]) -> bool
        ensures room { result ≡ has_room self.old (length bytes.now) }
        ensures after { self.new ≡ (if result then with_text self.old bytes.now else self.old) }
    {
        if self.calls_left == 0 || self.bytes_left < bytes.len() {
            return false;
        }
        append(&mut self.printed, bytes);
        self.calls_left -= 1;
        self.bytes_left -= bytes.len();
        true
    }

    // Leaves what a put that is torn leaves.
    fn tear_file(&mut self, name: &str, bytes: &[u8])
        ensures { self.new ≡ put_part self.old name.now bytes.now }
    {
        if let Some(kept) = self.torn() {
            self.write_file(name, &bytes[..kept.min(bytes.len())]);
        }
    }

    // Leaves what a print that is torn leaves.
    fn tear_text(&mut self, bytes: &[u8])
        ensures { self.new ≡ print_part self.old bytes.now }
    {
        if let Some(kept) = self.torn() {
            self.write_text(&bytes[..kept.min(bytes.len())]);
        }
    }
}

impl Shelf for MemShelf {
    ghost seen = { seen_of };

    fn read(&mut self, name: &str, from: u64, into: &mut [u8]) -> Result<usize, Failed>
        ensures bound { ReadsAtMost result into.new }
        ensures read { Read (seen_of self.old) (seen_of self.new) name.now from into.new result }
        ensures exact { ReadsKept self.old self.new name.now from into.new result }
    {
        if self.is_due() {
            return Err(self.fault());
        }
        let Some(file) = self.bytes(name) else {
            return Err(self.fault());
        };
        let given = copy_from(file, from, into);
        self.count();
        Ok(given)
    }

    fn put(&mut self, name: &str, bytes: &[u8]) -> Result<(), Failed>
        ensures put { Put (seen_of self.old) (seen_of self.new) name.now bytes.now result }
        ensures exact { PutsFile self.old self.new name.now bytes.now result }
    {
        if self.is_due() {
            self.tear_file(name, bytes);
            return Err(self.fault());
        }
        if self.write_file(name, bytes) {
            self.count();
            return Ok(());
        }
        Err(self.fault())
    }

    fn print(&mut self, bytes: &[u8]) -> Result<(), Failed>
        ensures print { Print (seen_of self.old) (seen_of self.new) bytes.now result }
        ensures exact { PrintsText self.old self.new bytes.now result }
    {
        if self.is_due() {
            self.tear_text(bytes);
            return Err(self.fault());
        }
        if self.write_text(bytes) {
            self.count();
            return Ok(());
        }
        Err(self.fault())
    }
}
