// The words that are put into a chip and to it: digit 0 is 0 for rules and telegrams, the code's digits follow.
ghost use Rattle.std.specs.Prelude.{◌≡◌, replicate, slice_set};
ghost use Rattle.ternary.specs.declared.digit.Digit.{Digit};
ghost use Rattle.ternary.specs.Words.{digits};
ghost use Rattle.codes.specs.Coding.{values_refusal, box_refusal};
ghost use Rattle.rules.specs.Rules.{row_digits, Made};

use codes::code::FieldCode;
use codes::coding::{code_box, code_values};
use codes::span::Span;
use ternary::digit::Digit;
use ternary::refusal::Refusal;
use ternary::word::Word;

// The word of a rule with this box.
#[tactic(auto, using(crate::proofs::RowWords::rule_made))]
pub fn rule_word<F: FieldCode>(code: &F, sides: &[Option<Span>]) -> Result<Word, Refusal>
    ensures { Made (box_refusal (F.FieldCode.meaning code.now) sides.now) (row_digits ((F.FieldCode.meaning code.now).box_word sides.now)) result }
{
    let mut word = marked();
    code_box(code, sides, &mut word)?;
    Ok(word)
}

// The key of a telegram with these values.
//
// Not one function with `rule_word`: that would take the coding call as a closure, whose clauses are longer than both bodies.
#[tactic(auto, using(crate::proofs::RowWords::key_made))]
pub fn key_word<F: FieldCode>(code: &F, values: &[u16]) -> Result<Word, Refusal>
    ensures { Made (values_refusal (F.FieldCode.meaning code.now) values.now) (row_digits ((F.FieldCode.meaning code.now).value_word values.now)) result }
{
    let mut word = marked();
    code_values(code, values, &mut word)?;
    Ok(word)
}

// Digit 0 is 0, and every other is *.
fn marked() -> Word
    ensures { digits result ≡ slice_set (replicate 256 Digit.Any) 0 Digit.Zero }
{
    let mut word = Word::blank();
    word.put(0, Digit::Zero);
    word
}
