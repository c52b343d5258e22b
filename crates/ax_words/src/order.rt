ghost use Rattle.std.specs.Prelude.{◌≡◌};

use ax_prog::{Bounds, Sets};
use sqlite_items::Items;
use std::alloc::AllocError;

/// What the words of a command line ask for.
#[derive(Debug, Drop)]
pub enum Order {
    Repair(RepairOrder),
    Check {
        source: String,
        tests: String,
        patched: String,
        cert: String,
    },
    Run {
        source: String,
        tests: String,
        steps: u32,
    },
    Rank {
        source: String,
        tests: String,
        formula: String,
        steps: u32,
    },
    Gen {
        n: u32,
    },
    Prove {
        cnf: String,
        proof: String,
        budget: u32,
    },
}

/// The order `repair`: its four files, which expressions are chosen, and its bounds.
#[derive(Debug, Drop)]
pub struct RepairOrder {
    pub source: String,
    pub tests: String,
    pub out: String,
    pub cert: String,
    pub choice: Choice,
    pub sets: Sets,
    pub bounds: Bounds,
    pub paths: u32,
    pub budget: u32,
}

/// The chosen expressions: the first `count` by a ranker's formula, or those of the picked numbers.
#[derive(Debug, Drop)]
pub enum Choice {
    Top { count: u32, formula: String },
    Pick(Items<u32>),
}

/// Why words give no order. An option is named with its two dashes, the number of `gen` as `N`.
#[derive(Debug, Drop)]
pub enum WordFault {
    Memory,
    NoCommand,
    UnknownCommand,
    /// The command doesn't take these words.
    Refused,
    /// The option's text isn't one to ten decimal digits.
    BadNumber(String),
    OutOfRange(String),
    /// `--pick` or `--with` isn't a list as it must be.
    BadList(String),
    /// `--pick` beside `--top` or `--formula`.
    Both,
    /// Two of the four files of `repair`, or the two of `prove`, have one name.
    SameName,
}

impl From<AllocError> for WordFault {
    ghost use Rattle.ax_words.specs.declared.order.WordFault.TheVariants.{Memory};

    ghost from_gives = { λ _ e. e ≡ Memory };

    fn from(_: AllocError) -> Self {
        WordFault::Memory
    }
}
