// How digits are printed.
use crate::word::Word;
use std::fmt;

// The digits of a word from the first to the last, as one string of 0, 1 and *.
#[derive(Drop)]
pub struct Digits {
    pub word: Word,
    pub first: u8,
    pub last: u8,
}

impl fmt::Display for Digits {
    fn fmt<W: fmt::Write>(&self, f: &mut fmt::Formatter<W>) -> fmt::Result {
        for i in self.first..=self.last {
            f.write_char(self.word.get(i).symbol())?;
        }
        Ok(())
    }
}
