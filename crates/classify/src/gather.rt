// The whole input: what its lines hold, and the faults of those that hold nothing.
ghost use Rattle.std.specs.Prelude.{◌≡◌, ◌≤◌};
ghost use Rattle.std.specs.Option.{unwrap_or, option_map};

use codes::code::FieldCode;
use listing::fault::{Cause, Fault};
use listing::list::RuleList;
use listing::rule::Rule;
use listing::telegram::Telegram;
use reading::line::{Line, parse_line};
use reading::rows::RowCount;
use std::alloc::{AllocFailed, Global};
use std::io;
use std::io::{BufRead, BufReader};

#[derive(Drop)]
pub struct Input {
    rows: Option<RowCount>,
    rules: RuleList,
    telegrams: Vec<Telegram>,
    // in the order of their lines
    faults: Vec<Fault>,
}

impl Input {
    fn new(heap: Global) -> Input {
        Input {
            rows: None,
            rules: RuleList::new(heap),
            telegrams: Vec::new(heap),
            faults: Vec::new(heap),
        }
    }

    // How many rows the chip has: 256 where no line says.
    pub fn rows(&self) -> u16
        ensures value { result ≡ unwrap_or (option_map (λ r. r.rows) self.now.rows) 256 }
        ensures few { result ≤ 256 }
    {
        self.rows.map_or(256, u16::from)
    }

    pub fn rules(&self) -> &[Rule] {
        self.rules.rules()
    }

    pub fn telegrams(&self) -> &[Telegram] {
        self.telegrams.as_slice()
    }

    pub fn faults(&self) -> &[Fault] {
        self.faults.as_slice()
    }

    // Takes up what a line holds, or says what is wrong with it beside the lines before it.
    fn take(&mut self, held: Line) -> Result<(), Cause> {
        match held {
            Line::Blank => Ok(()),
            Line::Rows(rows) => self.set_rows(rows),
            Line::Rule(rule) => self.rules.add(rule),
            Line::Telegram(telegram) => Ok(self.telegrams.push(telegram)?),
        }
    }

    fn set_rows(&mut self, rows: RowCount) -> Result<(), Cause> {
        if self.rows.is_some() {
            return Err(Cause::RowsTwice);
        }
        self.rows = Some(rows);
        Ok(())
    }

    // Takes up what was read from line number `line`; a fault is kept, and nothing else of the line.
    fn keep(&mut self, line: u64, read: Result<Line, Fault>) -> Result<(), AllocFailed<Fault>> {
        // a match, so that the fault is not pushed in the middle of a chain
        match read.and_then(|held| self.take(held).map_err(|cause| Fault { line, cause })) {
            Ok(()) => Ok(()),
            Err(fault) => self.faults.push(fault),
        }
    }
}

// Reads standard input to its end, line by line. Bytes that are not UTF-8 are read as U+FFFD, so that they
// spoil no more than their own line.
pub fn gather<F: FieldCode>(rt: &HostRuntime, code: &F) -> io::Result<Input> {
    let heap = rt.alloc();
    let mut input = Input::new(heap);
    let reader = BufReader::new(heap, rt.stdin())?;
    for (line, bytes) in (1..).zip(reader.split(heap, b'\n')) {
        // a line's bytes are its text, and copied only where they are not UTF-8
        let text = match String::from_utf8(bytes?) {
            Ok(text) => text,
            Err(e) => String::from_utf8_lossy(heap, e.as_bytes())?,
        };
        input.keep(line, parse_line(heap, code, line, text.as_str()))?;
    }
    Ok(input)
}
