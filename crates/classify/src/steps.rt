// The three steps behind the reading: the faults, the rules and the telegrams.
ghost use Rattle.std.specs.Prelude.{◌≡◌, [], length, OnOk};
ghost use Rattle.rules.specs.Rules.{Held};
ghost use Rattle.classify.specs.Placed.{placed, Step};

use chips::chip::Chip;
use codes::code::FieldCode;
use listing::fault::Fault;
use listing::rule::Rule;
use listing::telegram::Telegram;
use printing::report::{Answered, PlacedRule, RefusedRule};
use rules::board::Board;
use rules::row::rule_word;
use rules::rule::RuleRow;
use std::io;
use ternary::refusal::Refusal;
use ternary::text::Digits;
use ternary::word::Word;

pub fn print_faults(rt: &HostRuntime, faults: &[Fault]) -> io::Result<()> {
    for fault in faults {
        println!(rt; "{fault}")?;
    }
    Ok(())
}

// Writes a rule into a row, and gives the word that the row then holds.
fn place<C: Chip, F: FieldCode>(
    board: &mut Board<C, F>,
    row: u16,
    rule: &Rule,
) -> Result<Word, Refusal>
    ensures step { Step (F.FieldCode.meaning board.old.code) rule.now row (C.Chip.rows board.old.chip) (C.Chip.rows board.new.chip) result }
    ensures kept { board.new.code ≡ board.old.code }
{
    let sides = rule.sides.as_slice();
    let word = rule_word(&board.code, sides)?;
    let placed = RuleRow {
        number: rule.number,
        class: rule.class,
        sides,
    };
    board.place_rule(row, &placed)?;
    Ok(word)
}

// Fills the chip from row 0 up, and prints each row or refusal. A refused rule takes no row.
pub fn place_rules<C: Chip, F: FieldCode>(
    rt: &HostRuntime,
    board: &mut Board<C, F>,
    rules: &[Rule],
) -> io::Result<()>
    requires { Held (F.FieldCode.meaning board.old.code) [] (C.Chip.rows board.old.chip) }
    ensures kept { board.new.code ≡ board.old.code }
    ensures rows { OnOk result (Held (F.FieldCode.meaning board.old.code) (placed (F.FieldCode.meaning board.old.code) (length (C.Chip.rows board.old.chip)) rules.now) (C.Chip.rows board.new.chip)) }
{
    let last = board.code.size().min(255) as u8;
    // counts the rules that got a row, so it is no index of the list
    let mut row: u16 = 0;
    for rule in rules {
        match place(board, row, rule) {
            Ok(word) => {
                let digits = Digits {
                    word,
                    first: 0,
                    last,
                };
                println!(rt; "{}", PlacedRule { row, rule, digits })?;
                row = row.saturating_add(1);
            }
            Err(refusal) => println!(rt; "{}", RefusedRule { rule, refusal })?,
        }
    }
    Ok(())
}

// Puts each telegram's key to the chip, and prints its class and rule, or none.
pub fn class_telegrams<C: Chip, F: FieldCode>(
    rt: &HostRuntime,
    board: &Board<C, F>,
    telegrams: &[Telegram],
) -> io::Result<()> {
    for telegram in telegrams {
        let answer = board.class_of(telegram.values.as_slice());
        println!(rt; "{}", Answered { telegram, answer })?;
    }
    Ok(())
}
