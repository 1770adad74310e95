// Codes: a worked span, a span that wraps, the limits of settings, and the order of refusals.
use codes::coding::{code_box, code_values};
use codes::joined::JoinedCode;
use codes::span::Span;
use codes::width::Width;
use simple::fence::FenceCode;
use simple::plain::PlainCode;
use std::test::Fail;
use ternary::digit::Digit;
use ternary::refusal::Refusal;
use ternary::word::Word;

// At width 2 the fence word of the span from 1 to 2 is 1*0.
#[test]
fn fence_span(rt: HostRuntime) -> Result<(), Fail> {
    let mut word = Word::blank();
    code_box(
        &FenceCode::new(2)?,
        &[Some(Span { low: 1, len: 2 })],
        &mut word,
    )?;
    assert_eq!(rt; word.get(1), Digit::One);
    assert_eq!(rt; word.get(2), Digit::Any);
    assert_eq!(rt; word.get(3), Digit::Zero);
    assert_eq!(rt; word.get(4), Digit::Any, "behind the code's digits");
    Ok(())
}

// At width 4 the span of 4 values from 14 holds 14, 15, 0 and 1.
#[test]
fn span_that_wraps(rt: HostRuntime) -> Result<(), Fail> {
    let width = Width::new(4)?;
    let span = Span { low: 14, len: 4 };
    assert!(rt; !span.holds(width, 13));
    assert!(rt; span.holds(width, 14));
    assert!(rt; span.holds(width, 15));
    assert!(rt; span.holds(width, 0));
    assert!(rt; span.holds(width, 1));
    assert!(rt; !span.holds(width, 2));
    Ok(())
}

#[test]
fn settings_outside_their_limits(rt: HostRuntime) {
    assert!(rt; PlainCode::new(1).is_err());
    assert!(rt; PlainCode::new(2).is_ok());
    assert!(rt; PlainCode::new(16).is_ok());
    assert!(rt; PlainCode::new(17).is_err());
    assert!(rt; FenceCode::new(0).is_err());
    assert!(rt; FenceCode::new(1).is_ok());
    assert!(rt; FenceCode::new(6).is_ok());
    assert!(rt; FenceCode::new(7).is_err());
}

// Field 1 is outside its field and field 0 is not accepted: 9 comes before 10, whatever the field.
#[test]
fn nine_before_ten(rt: HostRuntime) -> Result<(), Fail> {
    let code = JoinedCode::new(PlainCode::new(4)?, FenceCode::new(2)?);
    let mut word = Word::blank();
    word.put(1, Digit::One);
    let before = word;
    let unaligned = Some(Span { low: 3, len: 2 });
    let too_long = Some(Span { low: 0, len: 5 });
    assert_eq!(rt;
        code_box(&code, &[unaligned, too_long], &mut word),
        Err(Refusal::OutsideField { field: 1 })
    );
    assert_eq!(rt;
        code_box(&code, &[unaligned, None], &mut word),
        Err(Refusal::SpanNotTaken { field: 0 })
    );
    assert_eq!(rt;
        code_box(&code, &[None], &mut word),
        Err(Refusal::WrongFieldCount)
    );
    assert_eq!(rt;
        code_values(&code, &[16, 4], &mut word),
        Err(Refusal::OutsideField { field: 0 })
    );
    assert!(rt; word == before, "a refused call leaves the word alone");
    Ok(())
}

// Five fences of width 6 have 315 digits.
#[test]
fn code_too_large(rt: HostRuntime) -> Result<(), Fail> {
    let fence = FenceCode::new(6)?;
    let four = JoinedCode::new(JoinedCode::new(fence, fence), JoinedCode::new(fence, fence));
    let mut word = Word::blank();
    assert_eq!(rt;
        code_values(&four, &[0, 0, 0, 0], &mut word),
        Ok(()),
        "252 digits"
    );
    assert_eq!(rt;
        code_values(&JoinedCode::new(four, fence), &[0, 0, 0, 0, 0], &mut word),
        Err(Refusal::CodeTooLarge)
    );
    Ok(())
}
