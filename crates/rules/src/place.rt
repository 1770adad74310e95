// A rule is put into a row, and a telegram is classed by the first row that matches its key. The calls take a chip and a code
// that are only borrowed; a `Board` holds both.
ghost use Rattle.std.specs.Prelude.{◌≡◌};
ghost use Rattle.ternary.specs.Refusals.{answered};
ghost use Rattle.rules.specs.Rules.{as_rule, class_answer, Placing, Classing, EmptyRowsLaw};

use crate::row::{key_word, rule_word};
use crate::rule::RuleRow;
use crate::tag::Tag;
use chips::chip::Chip;
use codes::code::FieldCode;
use ternary::refusal::Refusal;

// Writes a rule into a row; a refusal changes nothing.
//
// Where the rows hold a rule list and the row is the first behind it, they then hold the list with this rule at its end.
#[tactic(auto, using(crate::proofs::Answering::placed_held))]
pub fn place_rule<C: Chip, F: FieldCode>(
    chip: &mut C,
    code: &F,
    row: u16,
    rule: &RuleRow<'_>,
) -> Result<(), Refusal>
    ensures placing { Placing (F.FieldCode.meaning code.now) row (as_rule rule.now) (C.Chip.rows chip.old) (C.Chip.rows chip.new) (answered result) }
    ensures lent { C.Chip.loans chip.new ≡ C.Chip.loans chip.old }
{
    let word = rule_word(code, rule.sides)?;
    let tag = Tag {
        number: rule.number,
        class: rule.class,
    };
    chip.write(row, &word, tag.into())
}

// Number and class of the first row that matches the telegram's key: plain numbers and no `Tag`, the project's form for
// answers. Apart from `class_of`, since what that promises of a rule list is shown from this answer.
fn find_class<C: Chip, F: FieldCode>(
    chip: &C,
    code: &F,
    values: &[u16],
) -> Result<Option<(u16, u16)>, Refusal>
    ensures { answered result ≡ class_answer (F.FieldCode.meaning code.now) (C.Chip.rows chip.now) values.now }
{
    let key = key_word(code, values)?;
    let hit = chip.find(&key).map(|(_row, tag)| Tag::from(tag));
    Ok(hit.map(|tag| (tag.number, tag.class)))
}

// Classes a telegram by the first row that matches its key: the rule's number and its class, or none.
//
// Where the rows hold a rule list, that is what the list gives: the first rule in order whose box holds the values.
#[tactic(auto, using(crate::proofs::Answering::class_gives))]
pub fn class_of<C: Chip, F: FieldCode>(
    chip: &C,
    code: &F,
    values: &[u16],
) -> Result<Option<(u16, u16)>, Refusal>
    ensures { Classing (F.FieldCode.meaning code.now) (C.Chip.rows chip.now) values.now (answered result) }
{
    find_class(chip, code, values)
}

// Rows that are all empty hold the empty rule list, whatever the code.
pub fn empty_rows_law()
    ensures { EmptyRowsLaw }
{}
