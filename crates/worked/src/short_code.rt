// The short code: words of values and spans, a span that wraps, and the limits of settings and lengths.
use codes::coding::{code_box, code_values};
use codes::joined::JoinedCode;
use codes::span::Span;
use short::code::ShortCode;
use simple::plain::PlainCode;
use std::process::Abort;
use std::test::Fail;
use ternary::digit::Digit;
use ternary::refusal::Refusal;
use ternary::word::Word;

// The word whose digits are written so from digit 1 on; all others are *.
fn word_of(digits: &str) -> Word {
    let mut word = Word::blank();
    for (at, symbol) in (1..=255u8).zip(digits.chars()) {
        let digit = match symbol {
            '0' => Digit::Zero,
            '1' => Digit::One,
            _ => Digit::Any,
        };
        word.put(at, digit);
    }
    word
}

fn check_value(rt: &impl Abort, code: &ShortCode, value: u16, digits: &str) -> Result<(), Fail> {
    let mut word = Word::blank();
    code_values(code, &[value], &mut word)?;
    assert!(rt; word == word_of(digits), "{}", digits);
    Ok(())
}

fn check_span(
    rt: &impl Abort,
    code: &ShortCode,
    low: u16,
    len: u32,
    digits: &str,
) -> Result<(), Fail> {
    let mut word = Word::blank();
    code_box(code, &[Some(Span { low, len })], &mut word)?;
    assert!(rt; word == word_of(digits), "{}", digits);
    Ok(())
}

#[test]
fn words_of_four_bits(rt: HostRuntime) -> Result<(), Fail> {
    let code = ShortCode::new(4, 4)?;
    check_value(&rt, &code, 0, "00011")?;
    check_value(&rt, &code, 5, "01110")?;
    check_value(&rt, &code, 15, "10011")?;
    check_span(&rt, &code, 5, 4, "*1*1*")?;
    check_span(&rt, &code, 7, 4, "*1**1")?;
    check_span(&rt, &code, 4, 4, "01***")?;
    check_span(&rt, &code, 2, 4, "0*1**")?;
    check_span(&rt, &code, 7, 2, "*1*11")?;
    check_span(&rt, &code, 15, 2, "*0*11")?;
    check_span(&rt, &code, 6, 1, "010*0")
}

// At width 3 the span of 2 values from 7 holds 7 and 0.
#[test]
fn short_span_that_wraps(rt: HostRuntime) -> Result<(), Fail> {
    let code = ShortCode::new(3, 2)?;
    check_value(&rt, &code, 0, "000")?;
    check_value(&rt, &code, 5, "111")?;
    check_span(&rt, &code, 7, 2, "*00")
}

// The box of a joined code, and a span of 5 values, which is one too long.
#[test]
fn joined_box_and_a_span_too_long(rt: HostRuntime) -> Result<(), Fail> {
    let short = ShortCode::new(4, 4)?;
    let joined = JoinedCode::new(short, PlainCode::new(4)?);
    let mut word = Word::blank();
    code_box(&joined, &[Some(Span { low: 5, len: 4 }), None], &mut word)?;
    let before = word_of("*1*1*****");
    assert!(rt; word == before);
    assert_eq!(rt;
        code_box(&short, &[Some(Span { low: 0, len: 5 })], &mut word),
        Err(Refusal::SpanNotTaken { field: 0 })
    );
    assert!(rt; word == before, "a refused call leaves the word alone");
    Ok(())
}

#[test]
fn short_settings(rt: HostRuntime) {
    for (bits, longest) in [(2, 2), (8, 128), (16, 128), (16, 2)] {
        assert!(rt; ShortCode::new(bits, longest).is_ok(), "{bits} {longest}");
    }
    for (bits, longest) in [
        (1, 2),
        (2, 4),
        (17, 4),
        (8, 3),
        (8, 1),
        (8, 0),
        (16, 256),
        (7, 128),
    ] {
        assert_eq!(rt;
            ShortCode::new(bits, longest).err(),
            Some(Refusal::BadSetting),
            "{bits} {longest}"
        );
    }
}

// How many hours of the day, of 60 minutes each, have a word that the minute's word matches.
fn hours_of(code: &ShortCode, minute: u16) -> Result<u16, Refusal> {
    let mut key = Word::blank();
    code_values(code, &[minute], &mut key)?;
    let mut word = Word::blank();
    let mut hours = 0u16;
    for hour in 0..24u16 {
        let span = Span {
            low: 60 * hour,
            len: 60,
        };
        code_box(code, &[Some(span)], &mut word)?;
        if word.matches(&key) {
            hours = hours.saturating_add(1);
        }
    }
    Ok(hours)
}

// A load that is weighed at 07:00 is counted for one hour, and so is any other.
#[test]
fn on_the_hour_is_one_hour(rt: HostRuntime) -> Result<(), Fail> {
    let code = ShortCode::new(11, 64)?;
    for minute in [0, 419, 420, 421, 1439] {
        assert_eq!(rt; hours_of(&code, minute)?, 1, "minute {minute}");
    }
    assert_eq!(rt; hours_of(&code, 1440)?, 0, "no minute of the day");
    Ok(())
}
