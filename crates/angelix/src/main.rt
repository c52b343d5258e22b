//! The program: the trusted edge around the top call, over the files and the output of the system.
#![tactic(auto)]

ghost use Rattle.std.specs.Prelude.{◌≡◌, ◌⊎◌, IfErr};
ghost use Rattle.std_io.specs.declared.io.kind.ErrorKind.TheVariants.{OutOfMemory};

use ax_outside::{HostShelf, Shelf};
use ax_rank::{Jaccard, Ochiai, Ranker, Tarantula};
use ax_top::angelix;
use std::alloc::{AllocError, Global};
use std::io;
use std::process::ExitCode;

/// The status where the system's words can't be had or aren't UTF-8.
const NO_WORDS: u8 = 14;
/// The status where memory for the words or the rankers can't be had.
const NO_MEMORY: u8 = 10;

/// The status that stands for the want of the system's words.
fn status_of(kind: io::ErrorKind) -> u8
    ensures memory { kind ≡ OutOfMemory → result ≡ 10 }
    ensures words { (kind ≡ OutOfMemory → ⊥) → result ≡ 14 }
{
    match kind {
        io::ErrorKind::OutOfMemory => NO_MEMORY,
        _ => NO_WORDS,
    }
}

// The words after the program's name, or the status that stands for their want.
fn words(rt: &HostRuntime, alloc: Global) -> Result<Vec<String>, u8>
    ensures status { IfErr result (λ status. (status ≡ 10) ⊎ (status ≡ 14)) }
{
    let args = match std::env::args(rt) {
        Ok(args) => args,
        Err(error) => return Err(status_of(error.kind())),
    };
    let mut words = Vec::new(alloc);
    for word in args.skip(1) {
        if words.push(word).is_err() {
            return Err(NO_MEMORY);
        }
    }
    Ok(words)
}

// The status of the top call over the three rankers, which are picked by name in this order.
fn status_over<S: Shelf>(
    alloc: Global,
    words: Vec<String>,
    shelf: &mut S,
) -> Result<u8, AllocError> {
    let mut rankers: Vec<Box<dyn Ranker>> = Vec::new(alloc);
    rankers.push(Box::new(alloc, Jaccard::new(alloc))?)?;
    rankers.push(Box::new(alloc, Ochiai::new(alloc))?)?;
    rankers.push(Box::new(alloc, Tarantula::new(alloc))?)?;
    Ok(angelix(alloc, words, shelf, rankers))
}

fn main(rt: HostRuntime) -> ExitCode {
    let alloc = rt.alloc();
    match words(&rt, alloc) {
        Ok(words) => {
            let mut shelf = HostShelf::new(rt);
            match status_over(alloc, words, &mut shelf) {
                Ok(status) => ExitCode::from(status),
                Err(_) => ExitCode::from(NO_MEMORY),
            }
        }
        Err(status) => ExitCode::from(status),
    }
}
