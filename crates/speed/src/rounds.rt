// Coding over and over. Each word is matched with a fixed one, and the count is handed back, so that the compiler
// cannot leave the work out.
use crate::numbers::Numbers;
use codes::coding::{code_box, code_values};
use codes::span::Span;
use short::code::ShortCode;
use ternary::refusal::Refusal;
use ternary::word::Word;

// Codes values, and counts those that lie in the span from 32768 to 32895.
pub fn code_many_values(code: &ShortCode, rounds: u32) -> usize {
    let mut held = Word::blank();
    // the code takes it; a refusal would show in the count
    let _ = code_box(
        code,
        &[Some(Span {
            low: 32768,
            len: 128,
        })],
        &mut held,
    );
    count_matching(rounds, &held, |numbers, word| {
        code_values(code, &[numbers.value()], word)
    })
}

// Codes spans, and counts those that hold the value 32768.
pub fn code_many_spans(code: &ShortCode, rounds: u32) -> usize {
    let mut key = Word::blank();
    let _ = code_values(code, &[32768], &mut key);
    count_matching(rounds, &key, |numbers, word| {
        code_box(code, &[Some(numbers.span())], word)
    })
}

// How many of the words that `make` writes match the fixed one.
fn count_matching<F: Fn(&mut Numbers, &mut Word) -> Result<(), Refusal>>(
    rounds: u32,
    fixed: &Word,
    make: F,
) -> usize
    requires { (f : _) (numbers : _) (word : _) → F.pre f numbers word }
{
    let mut numbers = Numbers::new();
    let mut word = Word::blank();
    (0..rounds)
        .filter(|_| make(&mut numbers, &mut word).is_ok() && word.matches(fixed))
        .count()
}
