//! The outside: files by name, and what is printed.
//!
//! A [`Shelf`] stands for both. [`HostShelf`] is the system's files and standard output, [`MemShelf`] keeps all
//! in memory and fails where it is told to, and [`Endless`] has a file that never ends.
#![tactic(auto)]

mod endless;
mod files;
mod host;
mod memory;
mod reading;
mod shelf;

pub use endless::Endless;
pub use host::HostShelf;
pub use memory::MemShelf;
pub use reading::{ReadFault, read_all};
pub use shelf::{Failed, Shelf};
