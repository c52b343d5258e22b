//! Files one after another in a log of bytes.
ghost use Rattle.std.specs.Prelude.{◌≡◌, ◌≤◌, ◌<◌, ◌+◌, ◌∷◌, ◌++◌, OnOk, length, option_map, vec_len, vec_capacity};
ghost use Rattle.ax_outside.specs.Files.{AllLieIn, files_of};
ghost use Rattle.ax_outside.specs.Memory.{GivesAll, kept_in};

use std::alloc::AllocError;

// Where a file lies in the log: its name from `name` on, its content from `bytes` on to `end`.
#[derive(Clone, Copy)]
pub(crate) struct Entry {
    pub(crate) name: usize,
    pub(crate) bytes: usize,
    pub(crate) end: usize,
}

// The content of the first file of that name.
pub(crate) fn find<'a>(log: &'a [u8], files: &[Entry], name: &[u8]) -> Option<&'a [u8]>
    requires { AllLieIn (length log.now) files.now }
    ensures { option_map (λ b. b.now) result ≡ kept_in (files_of log.entry.now files.now) name.now }
{
    let mut rest = files;
    while let [first, after @ ..] = rest {
        if &log[first.name..first.bytes] == name {
            return Some(&log[first.bytes..first.end]);
        }
        rest = after;
    }
    None
}

// Appends bytes where there is memory for them.
pub(crate) fn append(bytes: &mut Vec<u8>, more: &[u8])
    requires { vec_len bytes.old + length more.now ≤ vec_capacity bytes.old }
    ensures items { bytes.new.items ≡ bytes.old.items ++ more.now }
    ensures len { vec_len bytes.new ≡ vec_len bytes.old + length more.now }
    ensures capacity { vec_capacity bytes.old ≤ vec_capacity bytes.new }
{
    bytes.extend_from_slice(more).unwrap();
}

// Puts an entry before the others where there is memory for it.
fn put_first(files: &mut Vec<Entry>, entry: Entry)
    requires { vec_len files.old < vec_capacity files.old }
    ensures items { files.new.items ≡ entry ∷ files.old.items }
    ensures len { vec_len files.new ≡ vec_len files.old + 1 }
    ensures capacity { vec_capacity files.old ≤ vec_capacity files.new }
{
    files.insert(0, entry).unwrap();
}

// Puts a file before the others where there is memory for it.
pub(crate) fn add_file(log: &mut Vec<u8>, files: &mut Vec<Entry>, name: &[u8], bytes: &[u8])
    requires log_room { vec_len log.old + length name.now + length bytes.now ≤ vec_capacity log.old }
    requires files_room { vec_len files.old < vec_capacity files.old }
    requires lie_in { AllLieIn (length log.old.items) files.old.items }
    ensures files { files_of log.new.items files.new.items ≡ record { name = name.now; bytes = bytes.now } ∷ files_of log.old.items files.old.items }
    ensures lie_in { AllLieIn (length log.new.items) files.new.items }
    ensures log_len { vec_len log.new ≡ vec_len log.old + length name.now + length bytes.now }
    ensures files_len { vec_len files.new ≡ vec_len files.old + 1 }
    ensures log_capacity { vec_capacity log.old ≤ vec_capacity log.new }
    ensures files_capacity { vec_capacity files.old ≤ vec_capacity files.new }
{
    let at = log.len();
    append(log, name);
    let middle = log.len();
    append(log, bytes);
    let end = log.len();
    let entry = Entry {
        name: at,
        bytes: middle,
        end,
    };
    put_first(files, entry);
}

// Copies bytes from that place on to the front of `into`, as many as there are and fit.
pub(crate) fn copy_from(bytes: &[u8], from: u64, into: &mut [u8]) -> usize
    ensures { GivesAll bytes.now from into.new result }
{
    let from = from as usize;
    if from >= bytes.len() {
        return 0;
    }
    let rest = &bytes[from..];
    let count = rest.len().min(into.len());
    into[..count].copy_from_slice(&rest[..count]);
    count
}

// Makes room for three numbers of bytes together.
pub(crate) fn reserve(
    log: &mut Vec<u8>,
    name: usize,
    bytes: usize,
    left: usize,
) -> Result<(), AllocError>
    ensures items { log.new.items ≡ log.old.items }
    ensures len { vec_len log.new ≡ vec_len log.old }
    ensures capacity { vec_capacity log.old ≤ vec_capacity log.new }
    ensures ok { OnOk result (vec_len log.old + name + bytes + left ≤ vec_capacity log.new) }
{
    let Some(needed) = name.checked_add(bytes) else {
        return Err(AllocError);
    };
    let Some(needed) = needed.checked_add(left) else {
        return Err(AllocError);
    };
    log.reserve(needed)
}
