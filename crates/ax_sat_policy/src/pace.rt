//! When to restart.

/// How many lines the shortest part between restarts has.
const UNIT: u64 = 100;

/// Luby's sequence, 1, 1, 2, 1, 1, 2, 4 and so on: as many units of lines come between restarts.
#[derive(Clone, Copy, Debug)]
pub struct Pace {
    turn: u64,
    units: u64,
    left: u64,
}

impl Pace {
    /// Before the first line.
    pub fn new() -> Pace {
        Pace {
            turn: 1,
            units: 1,
            left: UNIT,
        }
    }

    /// How many units the current part has.
    pub fn units(&self) -> u64 {
        self.units
    }

    /// Goes on to the next part. Where the turn's lowest binary digit has the units' weight, the next turn begins.
    pub fn advance(&mut self) {
        if self.turn & self.turn.wrapping_neg() == self.units {
            self.turn = self.turn.wrapping_add(1);
            self.units = 1;
        } else {
            self.units = self.units.wrapping_mul(2);
        }
        self.left = self.units.saturating_mul(UNIT);
    }

    /// Counts a line, and says whether it is time to restart.
    pub fn is_over(&mut self) -> bool {
        if self.left > 0 {
            self.left -= 1;
            return false;
        }
        self.advance();
        true
    }
}
