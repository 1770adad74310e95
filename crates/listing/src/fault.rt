// What is wrong with a line of the input. A line with a fault is left out, and the others stand.
ghost use Rattle.std.specs.Prelude.{◌≡◌, ◌++◌, Some, codes, decimal};
ghost use Rattle.listing.specs.declared.fault.Cause.TheVariants.{NoMemory};
ghost use Rattle.listing.specs.Faults.{cause_text};

use std::alloc::AllocError;
use std::error::Error;
use std::fmt;

#[derive(Debug, Drop)]
pub enum Cause {
    // the line's first word
    UnknownWord(String),
    // fewer than three words behind `rule`
    RuleShort,
    NotANumber(String),
    NotASide(String),
    // an end of L..H is above the field's highest value
    LeavesField { side: String, highest: u16 },
    BadRows,
    RowsTwice,
    // the line of the rule that has the number
    NumberInUse { number: u16, line: u64 },
    NoMemory,
}

#[derive(Debug, Drop)]
pub struct Fault {
    // from 1
    pub line: u64,
    pub cause: Cause,
}

// What the library says where there is no memory, with the value that was not stored or without.
impl<E: Into<AllocError> + Drop> From<E> for Cause {
    ghost from_gives = { λ _ r. r ≡ NoMemory };

    fn from(_e: E) -> Cause {
        Cause::NoMemory
    }
}

impl fmt::Display for Cause {
    ghost output = { λ c. Some (cause_text c) };

    fn fmt<W: fmt::Write>(&self, f: &mut fmt::Formatter<W>) -> fmt::Result {
        match self {
            Cause::UnknownWord(word) => write!(f, "'{word}' is not rows, rule or telegram"),
            Cause::RuleShort => write!(
                f,
                "a rule has a number, a rank, a class and a side for each field"
            ),
            Cause::NotANumber(word) => write!(f, "'{word}' is not a number from 0 to 65535"),
            Cause::NotASide(word) => write!(f, "'{word}' is not a side: any, V, L..H or L+N"),
            Cause::LeavesField { side, highest } => {
                write!(
                    f,
                    "'{side}' leaves the field, whose highest value is {highest}"
                )
            }
            Cause::BadRows => write!(f, "rows is 1 to 256"),
            Cause::RowsTwice => write!(f, "rows stands twice"),
            Cause::NumberInUse { number, line } => write!(
                f,
                "number {number} is in use already, in line {line}"
            ),
            Cause::NoMemory => write!(f, "there is no memory for it"),
        }
    }
}

impl fmt::Display for Fault {
    ghost output = { λ x. Some (codes "line " ++ (decimal x.line ++ (codes ": " ++ cause_text x.cause))) };

    fn fmt<W: fmt::Write>(&self, f: &mut fmt::Formatter<W>) -> fmt::Result {
        write!(f, "line {}: {}", self.line, self.cause)
    }
}

impl Error for Cause {}

impl Error for Fault {}
