//! When to begin a watch anew.

/// How many lines the first part has.
const FIRST: u64 = 2000;

/// How many lines each part has more than the one before it.
const MORE: u64 = 500;

/// Parts of a search, each some lines longer than the one before it. To begin a watch anew costs a walk over all that it watches,
/// and the longer a search goes on, the more that is.
#[derive(Clone, Copy, Debug)]
pub struct Due {
    left: u64,
    size: u64,
}

impl Due {
    /// Before the first line.
    pub fn new() -> Due {
        Due {
            left: FIRST,
            size: FIRST,
        }
    }

    /// Counts a line, and says whether a part is over.
    pub fn is_over(&mut self) -> bool {
        if self.left > 0 {
            self.left -= 1;
            return false;
        }
        self.size = self.size.saturating_add(MORE);
        self.left = self.size;
        true
    }
}
