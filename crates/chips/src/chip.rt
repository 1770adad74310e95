// What every chip answers, told by the list of its rows alone.
//
// No call has a premise: a row that is not on the chip is refused, and a refused call changes nothing.
ghost use Rattle.std.specs.Borrow.{GName};
ghost use Rattle.std.specs.Prelude.{◌≡◌, ◌≤◌, List, length, slice_set};
ghost use Rattle.ternary.specs.Words.{digits};
ghost use Rattle.ternary.specs.Refusals.{answered};
ghost use Rattle.chips.specs.Chip.{Holding, read_told, read_answer, put_answer, empty_row, full_row, first_match, PutLaw, FindLaw};

use crate::row::Row;
use ternary::refusal::Refusal;
use ternary::word::Word;

pub trait Chip {
    // what each row holds: nothing, or its word's digits and its tag
    ghost rows: { Self → List Holding };

    // the loans of memory that the chip works through; no call ends or trades one, which each has to say, since a call
    // through a `&mut` could put another chip in its place
    ghost loans: { Self → List GName };

    // How many rows the chip has.
    fn count(&self) -> u16
        ensures all { result ≡ length (rows self.now) }
        ensures few { result ≤ 4096 };

    // What a row holds.
    fn read(&self, row: u16) -> Result<Option<Row>, Refusal>
        ensures { read_told result ≡ read_answer (rows self.now) row };

    // Puts a word and a tag into a row, whatever it held.
    fn write(&mut self, row: u16, word: &Word, tag: u32) -> Result<(), Refusal>
        ensures answer { answered result ≡ put_answer (rows self.old) row }
        ensures after { rows self.new ≡ slice_set (rows self.old) row (full_row (digits word.now) tag) }
        ensures lent { loans self.new ≡ loans self.old };

    // Empties a row, whatever it held.
    fn erase(&mut self, row: u16) -> Result<(), Refusal>
        ensures answer { answered result ≡ put_answer (rows self.old) row }
        ensures after { rows self.new ≡ slice_set (rows self.old) row empty_row }
        ensures lent { loans self.new ≡ loans self.old };

    // The lowest row whose word matches the key, with its tag: a pair of plain numbers, the project's form for answers.
    fn find(&self, key: &Word) -> Option<(u16, u32)>
        ensures { result ≡ first_match (rows self.now) (digits key.now) };

    // no chip has more than 4,096 rows
    ghost few: { (c : Self) → length (rows c) ≤ 4096 };
}

// A write or an erase that is accepted changes its own row and no other; one that is refused changes nothing.
pub fn put_law()
    ensures { PutLaw }
{}

// What `find` answers is the lowest row that matches, with its tag, or that none does; no other answer is.
#[tactic(auto, using(crate::proofs::Finds::find_law))]
pub fn find_law()
    ensures { FindLaw }
{}
