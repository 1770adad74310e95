// A question as its line tells it.
use codes::span::Span;
use std::alloc::{AllocError, Global};

// A code of one field, as a line writes it; whether there is such a code is for the code to say.
#[derive(Clone, Copy)]
pub enum Setting {
    Plain { bits: u8 },
    Fence { bits: u8 },
    Short { bits: u8, longest: u16 },
}

#[derive(Drop)]
pub enum Asked {
    Values(Vec<u16>),
    Box(Vec<Option<Span>>),
}

#[derive(Drop)]
pub struct Question {
    pub first: Setting,
    pub second: Option<Setting>,
    pub asked: Asked,
}

impl Question {
    // None where the line is not a question.
    pub fn read(heap: Global, line: &str) -> Result<Option<Question>, AllocError> {
        let words: Vec<&str> = line.split_whitespace().collect(heap)?;
        let Some((first, rest)) = read_setting(words.as_slice()) else {
            return Ok(None);
        };
        let (second, rest) = read_setting(rest).map_or(
            (None, rest),
            |(second, rest)| (Some(second), rest),
        );
        Ok(read_asked(heap, rest)?.map(|asked| Question {
            first,
            second,
            asked,
        }))
    }
}

// The setting that the words begin with, and the words behind it.
fn read_setting<'a>(words: &'a [&'a str]) -> Option<(Setting, &'a [&'a str])> {
    match words {
        ["plain", bits, rest @ ..] => {
            let bits = bits.parse::<u8>().ok()?;
            Some((Setting::Plain { bits }, rest))
        }
        ["fence", bits, rest @ ..] => {
            let bits = bits.parse::<u8>().ok()?;
            Some((Setting::Fence { bits }, rest))
        }
        ["short", bits, longest, rest @ ..] => {
            let bits = bits.parse::<u8>().ok()?;
            let longest = longest.parse::<u16>().ok()?;
            Some((Setting::Short { bits, longest }, rest))
        }
        _ => None,
    }
}

// What the words behind the settings ask for.
fn read_asked(heap: Global, words: &[&str]) -> Result<Option<Asked>, AllocError> {
    match words {
        ["value", rest @ ..] => {
            let values: Option<Vec<u16>> = rest.iter().map(|word| word.parse().ok()).collect(heap)?;
            Ok(values.map(Asked::Values))
        }
        ["box", rest @ ..] => {
            let sides: Option<Vec<Option<Span>>> = rest
                .iter()
                .map(|word| side(word))
                .collect(heap)?;
            Ok(sides.map(Asked::Box))
        }
        _ => Ok(None),
    }
}

// `any`, or a low end and a length as `4+2`.
fn side(word: &str) -> Option<Option<Span>> {
    if word == "any" {
        return Some(None);
    }
    let (low, len) = word.split_once('+')?;
    let low = low.parse::<u16>().ok()?;
    let len = len.parse::<u32>().ok()?;
    Some(Some(Span { low, len }))
}
