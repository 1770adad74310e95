// A line of the input: nothing, the count of rows, a rule or a telegram.
ghost use Rattle.std.specs.Prelude.{◌≡◌, IfOk, MatchResult};
ghost use Rattle.reading.specs.Lines.{FromLine};

use crate::rows::RowCount;
use codes::code::FieldCode;
use codes::span::Span;
use listing::fault::{Cause, Fault};
use listing::number::number;
use listing::rule::Rule;
use listing::side::{SideFault, highest_at, read_side};
use listing::telegram::Telegram;
use std::alloc::Global;
use std::str::SplitWhitespace;

#[derive(Drop)]
pub enum Line {
    Blank,
    Rows(RowCount),
    Rule(Rule),
    Telegram(Telegram),
}

// Reads line number `line`. The sides of a rule's box are read by the fields of the code.
pub fn parse_line<F: FieldCode>(
    heap: Global,
    code: &F,
    line: u64,
    text: &str,
) -> Result<Line, Fault>
    ensures { MatchResult result (FromLine line) (λ fault. fault.line ≡ line) }
{
    let words = before_comment(text).split_whitespace();
    let reader = LineReader {
        heap,
        code,
        line,
        words,
    };
    reader.read().map_err(|cause| Fault { line, cause })
}

// A `#` begins a comment.
fn before_comment(text: &str) -> &str {
    text.split_once('#').map_or(text, |(front, _)| front)
}

// What one line is read with.
#[derive(Drop)]
struct LineReader<'a, F> {
    heap: Global,
    // tells the fields that a rule's sides are of
    code: &'a F,
    // the line's number
    line: u64,
    // those that are not read yet
    words: SplitWhitespace<'a>,
}

impl<'a, F: FieldCode> LineReader<'a, F> {
    fn read(mut self) -> Result<Line, Cause>
        ensures { IfOk result (FromLine self.entry.line) }
    {
        match self.words.next() {
            None => Ok(Line::Blank),
            Some("rows") => Ok(Line::Rows(self.rows()?)),
            Some("rule") => Ok(Line::Rule(self.rule()?)),
            Some("telegram") => Ok(Line::Telegram(self.telegram()?)),
            Some(word) => Err(Cause::UnknownWord(String::from_str(self.heap, word)?)),
        }
    }

    fn rows(mut self) -> Result<RowCount, Cause> {
        let (Some(word), None) = (self.words.next(), self.words.next()) else {
            return Err(Cause::BadRows);
        };
        RowCount::try_from(number(word).ok_or(Cause::BadRows)?)
    }

    fn rule(mut self) -> Result<Rule, Cause>
        ensures { IfOk result (λ rule. rule.line ≡ self.entry.line) }
    {
        Ok(Rule {
            line: self.line,
            number: self.next_number()?,
            rank: self.next_number()?,
            class: self.next_number()?,
            sides: self.sides()?,
        })
    }

    fn telegram(self) -> Result<Telegram, Cause>
        ensures { IfOk result (λ telegram. telegram.line ≡ self.entry.line) }
    {
        Ok(Telegram {
            line: self.line,
            values: self
                .words
                .map(|word| read_number(self.heap, word))
                .try_collect(self.heap)?,
        })
    }

    fn next_number(&mut self) -> Result<u16, Cause> {
        let word = self.words.next().ok_or(Cause::RuleShort)?;
        read_number(self.heap, word)
    }

    fn sides(self) -> Result<Vec<Option<Span>>, Cause> {
        self.words
            .enumerate()
            .map(|(field, word)| side(self.heap, word, highest_at(self.code, field)))
            .try_collect(self.heap)
    }
}

// No `ok_or`: the word is copied for a fault alone, and the copy itself can fail. Like `side`, it takes the heap and no
// reader, since the chains above have moved the reader's words.
fn read_number(heap: Global, word: &str) -> Result<u16, Cause> {
    match number(word) {
        Some(n) => Ok(n),
        None => Err(Cause::NotANumber(String::from_str(heap, word)?)),
    }
}

// A side of a box from its word, or what is wrong with it.
fn side(heap: Global, word: &str, highest: u16) -> Result<Option<Span>, Cause> {
    read_side(word, highest).or_else(|fault| {
        let side = String::from_str(heap, word)?;
        Err(match fault {
            SideFault::Unread => Cause::NotASide(side),
            SideFault::Leaves => Cause::LeavesField { side, highest },
        })
    })
}
