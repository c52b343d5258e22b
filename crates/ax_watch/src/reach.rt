//! Places of the trail to which propagation came.

ghost use Rattle.std.specs.Prelude.{◌≡◌, ◌<◌, ◌≤◌, ◌⊎◌, [], Contains, IfSome, length, slice_index_or};
ghost use Rattle.ax_watch.specs.Marks.{IsRising, IsFrom, AreLeft};

use std::alloc::{AllocError, Global};
use std::marker::Model;

/// Numbers of literals of the trail, rising, in room that was made before.
#[derive(Drop)]
pub struct Marks {
    lens: Vec<usize>,
}

impl Model for Marks {
    ghost use Rattle.std.specs.Prelude.{ℕ, List};
    ghost use Rattle.ax_watch.specs.Marks.{IsRising};

    ghost Value = { List ℕ };

    ghost view = { λ m. m.lens.items };

    ghost invariant = { λ m. IsRising m.lens.items };
}

/// How many of the numbers, from the first on, to keep where those above `len` go.
fn kept(lens: &[usize], len: usize) -> usize
    requires { IsRising lens.now }
    ensures few { result ≤ length lens.now }
    ensures low { (at : _) → at < result → slice_index_or lens.now at 0 ≤ len }
{
    let mut count = lens.len();
    while count > 0 && lens[count - 1] > len {
        count -= 1;
    }
    count
}

impl Marks {
    /// None, and no room.
    pub fn new(alloc: Global) -> Marks
        ensures { result ≡ [] }
    {
        Marks {
            lens: Vec::new(alloc),
        }
    }

    /// Makes room for one of each number up to `most`.
    pub fn reserve(&mut self, most: usize) -> Result<(), AllocError>
        ensures { self.new ≡ self.old }
    {
        let count = most.checked_add(1).ok_or(AllocError)?;
        self.lens.reserve(count)
    }

    /// The last one.
    pub fn last(&self) -> Option<usize>
        ensures { IfSome result (λ len. Contains self.now len) }
    {
        self.lens.last().copied()
    }

    /// Takes away those above `len`.
    pub fn cut(&mut self, len: usize)
        ensures { (m : _) → Contains self.new m → Contains self.old m × (m ≤ len) }
    {
        let count = kept(self.lens.as_slice(), len);
        self.lens.truncate(count);
    }

    /// Takes all away.
    pub fn clear(&mut self)
        ensures { self.new ≡ [] }
    {
        self.lens.clear();
    }

    /// Puts one behind the others, in place of those above it. One that finds no room is left out: marks save time, and
    /// nothing rests on their being there.
    pub fn push(&mut self, len: usize)
        ensures { (m : _) → Contains self.new m → Contains self.old m ⊎ (m ≡ len) }
    {
        self.cut(len);
        if self.last() != Some(len) && self.lens.len() < self.lens.capacity() {
            self.lens.push_reserved(len);
        }
    }
}

/// From how many literals of the trail to go on: the number beside the marks, or the last mark.
pub fn start(marks: &Marks, head: Option<usize>) -> Option<usize>
    ensures { IfSome result (λ len. IsFrom marks.now head len) }
{
    match head {
        Some(len) => Some(len),
        None => marks.last(),
    }
}

/// Takes away the marks above `until`, or all where there is none, and gives the number to go on from.
pub fn lower(marks: &mut Marks, head: Option<usize>, until: Option<usize>) -> Option<usize>
    ensures marks { AreLeft marks.old marks.new until }
    ensures head { IfSome result (λ len. (before bound : _) × IsFrom marks.old head before × (until ≡ Some bound) × (len ≤ before) × (len ≤ bound)) }
{
    match until {
        None => {
            marks.clear();
            None
        }
        Some(bound) => {
            let from = start(marks, head);
            marks.cut(bound);
            Some(from?.min(bound))
        }
    }
}
