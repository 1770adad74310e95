// The answer to a question.
use crate::question::{Asked, Question, Setting};
use codes::code::FieldCode;
use codes::coding::{code_box, code_values};
use codes::joined::JoinedCode;
use short::code::ShortCode;
use simple::fence::FenceCode;
use simple::plain::PlainCode;
use std::alloc::{AllocError, Global};
use std::io::{BufRead, BufReader};
use ternary::refusal::Refusal;
use ternary::text::Digits;
use ternary::word::Word;

// Answers standard input, line by line: the line, ` = ` and the answer.
pub fn answer_input(rt: &HostRuntime) -> anyhow::Result<()> {
    let heap = rt.alloc();
    for line in BufReader::new(heap, rt.stdin())?.lines(heap) {
        let line = line?;
        let text = answer_line(heap, line.as_str())?;
        println!(rt; "{line} = {text}")?;
    }
    Ok(())
}

// What the line asks for, or that it is not a question. Whoever makes a text is handed the heap, here as in the library.
pub fn answer_line(heap: Global, line: &str) -> Result<String, AllocError> {
    match Question::read(heap, line)? {
        Some(question) => answer(heap, &question),
        None => String::from_str(heap, "not a question"),
    }
}

pub fn answer(heap: Global, question: &Question) -> Result<String, AllocError> {
    match coded(question) {
        // collected and not by `format!`, by which a long word's answer took up to 1.6 times as long
        Ok(Digits { word, first, last }) => (first..=last)
            .map(|i| word.get(i).symbol())
            .collect(heap),
        Err(refusal) => refused(heap, refusal),
    }
}

fn refused(heap: Global, refusal: Refusal) -> Result<String, AllocError> {
    let number = refusal.number();
    let place = refusal.place();
    let layer = refusal.layer().number();
    format!(in heap; "no {number} {place} {layer}")
}

// The word that is asked for, from digit 1 on. Each code is a type of its own, so a setting is matched where its code is
// made, the first one's here and the second one's below: a function for both would have to answer a code of any type.
fn coded(question: &Question) -> Result<Digits, Refusal> {
    match question.first {
        Setting::Plain { bits } => coded_by_first(PlainCode::new(bits)?, question),
        Setting::Fence { bits } => coded_by_first(FenceCode::new(bits)?, question),
        Setting::Short { bits, longest } => coded_by_first(
            ShortCode::new(bits, longest)?,
            question,
        ),
    }
}

fn coded_by_first<P: FieldCode + Copy>(first: P, question: &Question) -> Result<Digits, Refusal> {
    let asked = &question.asked;
    match question.second {
        None => coded_by(&first, asked),
        Some(Setting::Plain { bits }) => coded_by_both(first, PlainCode::new(bits)?, asked),
        Some(Setting::Fence { bits }) => coded_by_both(first, FenceCode::new(bits)?, asked),
        Some(Setting::Short { bits, longest }) => coded_by_both(
            first,
            ShortCode::new(bits, longest)?,
            asked,
        ),
    }
}

fn coded_by_both<P: FieldCode + Copy, Q: FieldCode + Copy>(
    first: P,
    second: Q,
    asked: &Asked,
) -> Result<Digits, Refusal> {
    coded_by(&JoinedCode::new(first, second), asked)
}

fn coded_by<F: FieldCode>(code: &F, asked: &Asked) -> Result<Digits, Refusal> {
    let mut word = Word::blank();
    match asked {
        Asked::Values(values) => code_values(code, values.as_slice(), &mut word)?,
        Asked::Box(sides) => code_box(code, sides.as_slice(), &mut word)?,
    }
    let last = code.size().min(255) as u8;
    Ok(Digits {
        word,
        first: 1,
        last,
    })
}
