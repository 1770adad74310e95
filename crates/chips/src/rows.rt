// A chip over memory that its caller lends, one slot a row: an `Option<Row>`.
//
// It has the first 256 slots as it finds them. Slots behind those are not rows of it and stay as they are.
ghost use Rattle.std.specs.Prelude.{◌≡◌, ◌≤◌, map, length, slice_set};
ghost use Rattle.ternary.specs.Words.{digits};
ghost use Rattle.ternary.specs.Refusals.{answered};
ghost use Rattle.chips.specs.Chip.{meaning, put_answer, empty_row, full_row, hit_tag};
ghost use Rattle.chips.specs.Lent.{rows_of, behind, loans_of, few_rows};

use crate::chip::Chip;
use crate::row::Row;
use ternary::refusal::Refusal;
use ternary::word::Word;

#[derive(Drop)]
pub struct RowChip<'a> {
    rows: &'a mut [Option<Row>],
}

impl<'a> RowChip<'a> {
    // A chip over the caller's memory.
    pub fn over(rows: &'a mut [Option<Row>]) -> RowChip<'a>
        ensures all { result.rows.now ≡ rows.old }
        ensures lent { result.rows.ghost_name ≡ rows.entry.ghost_name }
    {
        RowChip { rows }
    }

    // The slots that are rows.
    #[tactic(auto, using(crate::proofs::Memory::rows_in_front))]
    fn on_chip(&self) -> &[Option<Row>]
        ensures all { map meaning result.now ≡ rows_of self.now }
        ensures few { length result.now ≤ 256 }
    {
        &self.rows[..self.rows.len().min(256)]
    }

    // Makes a row hold what is given, or refuses it.
    #[tactic(auto, using(crate::proofs::Memory::written))]
    fn put(&mut self, row: u16, held: Option<Row>) -> Result<(), Refusal>
        ensures answer { answered result ≡ put_answer (rows_of self.old) row }
        ensures after { rows_of self.new ≡ slice_set (rows_of self.old) row (meaning held) }
        ensures lent { loans_of self.new ≡ loans_of self.old }
        ensures past { behind self.new ≡ behind self.old }
    {
        if row >= self.count() {
            return Err(Refusal::NoSuchRow { row });
        }
        self.rows[usize::from(row)] = held;
        Ok(())
    }
}

// The tag of what a row holds, where its word matches the key.
fn hit(held: &Option<Row>, key: &Word) -> Option<u32>
    ensures { result ≡ hit_tag (meaning held.now) (digits key.now) }
{
    held.as_ref()
        .filter(|row| row.word.matches(key))
        .map(|row| row.tag)
}

impl<'a> Chip for RowChip<'a> {
    ghost rows = { rows_of };

    ghost loans = { loans_of };

    ghost few = { few_rows };

    fn count(&self) -> u16 {
        self.on_chip().len() as u16
    }

    fn read(&self, row: u16) -> Result<Option<Row>, Refusal> {
        self.on_chip()
            .get(usize::from(row))
            .copied()
            .ok_or(Refusal::NoSuchRow { row })
    }

    fn write(&mut self, row: u16, word: &Word, tag: u32) -> Result<(), Refusal>
        ensures answer { answered result ≡ put_answer (rows_of self.old) row }
        ensures after { rows_of self.new ≡ slice_set (rows_of self.old) row (full_row (digits word.now) tag) }
        ensures lent { loans_of self.new ≡ loans_of self.old }
        ensures past { behind self.new ≡ behind self.old }
    {
        self.put(row, Some(Row { word: *word, tag }))
    }

    fn erase(&mut self, row: u16) -> Result<(), Refusal>
        ensures answer { answered result ≡ put_answer (rows_of self.old) row }
        ensures after { rows_of self.new ≡ slice_set (rows_of self.old) row empty_row }
        ensures lent { loans_of self.new ≡ loans_of self.old }
        ensures past { behind self.new ≡ behind self.old }
    {
        self.put(row, None)
    }

    #[tactic(auto, using(crate::proofs::Steps::found, crate::proofs::Steps::passed))]
    fn find(&self, key: &Word) -> Option<(u16, u32)> {
        // the project's form for `find`: a loop over the rows with their index, until the first match
        for (i, held) in self.on_chip().iter().enumerate() {
            if let Some(tag) = hit(held, key) {
                return Some((i as u16, tag));
            }
        }
        None
    }
}
