// What a row of a chip holds: a word, and a tag that the chip stores and does not read. An empty row holds none.
use ternary::word::Word;

#[derive(Clone, Copy, PartialEq, Eq, Debug)]
pub struct Row {
    pub word: Word,
    pub tag: u32,
}
