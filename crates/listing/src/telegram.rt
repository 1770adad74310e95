// A telegram that is put to a rule list: a value for each field.
use std::fmt;

#[derive(Drop)]
pub struct Telegram {
    pub values: Vec<u16>,
    // where it stands in the input, from 1
    pub line: u64,
}

// As it is written: the word and its values.
impl fmt::Display for Telegram {
    fn fmt<W: fmt::Write>(&self, f: &mut fmt::Formatter<W>) -> fmt::Result {
        write!(f, "telegram")?;
        for value in self.values.iter() {
            write!(f, " {value}")?;
        }
        Ok(())
    }
}
