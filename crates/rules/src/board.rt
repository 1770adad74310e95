// A board: a chip, and the code that its rows are written in.
ghost use Rattle.std.specs.Prelude.{◌≡◌};
ghost use Rattle.ternary.specs.Refusals.{answered};
ghost use Rattle.rules.specs.Rules.{as_rule, Placing, Classing};

use crate::place::{class_of, place_rule};
use crate::rule::RuleRow;
use chips::chip::Chip;
use codes::code::FieldCode;
use ternary::refusal::Refusal;

#[derive(Drop)]
pub struct Board<C, F> {
    pub chip: C,
    pub code: F,
}

impl<C: Chip, F: FieldCode> Board<C, F> {
    // Writes a rule into a row of the chip, as `place_rule` does. That the code stays is said, as a `&mut self` lends it too.
    pub fn place_rule(&mut self, row: u16, rule: &RuleRow<'_>) -> Result<(), Refusal>
        ensures placing { Placing (F.FieldCode.meaning self.old.code) row (as_rule rule.now) (C.Chip.rows self.old.chip) (C.Chip.rows self.new.chip) (answered result) }
        ensures lent { C.Chip.loans self.new.chip ≡ C.Chip.loans self.old.chip }
        ensures kept { self.new.code ≡ self.old.code }
    {
        place_rule(&mut self.chip, &self.code, row, rule)
    }

    // Classes a telegram by the chip's rows, as `class_of` does.
    pub fn class_of(&self, values: &[u16]) -> Result<Option<(u16, u16)>, Refusal>
        ensures { Classing (F.FieldCode.meaning self.now.code) (C.Chip.rows self.now.chip) values.now (answered result) }
    {
        class_of(&self.chip, &self.code, values)
    }
}
