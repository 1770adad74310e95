// Words: digits at the borders of limbs, matches, joins, equality.
use ternary::digit::Digit;
use ternary::word::Word;

#[test]
fn digits_at_limb_borders(rt: HostRuntime) {
    let mut word = Word::blank();
    word.put(63, Digit::One);
    word.put(64, Digit::Zero);
    word.put(255, Digit::One);
    assert_eq!(rt; word.get(62), Digit::Any);
    assert_eq!(rt; word.get(63), Digit::One);
    assert_eq!(rt; word.get(64), Digit::Zero);
    assert_eq!(rt; word.get(255), Digit::One);
    word.put(63, Digit::Any);
    assert_eq!(rt; word.get(63), Digit::Any);
    assert_eq!(rt; word.get(0), Digit::Any);
}

#[test]
fn match_needs_every_digit(rt: HostRuntime) {
    let mut word = Word::blank();
    word.put(0, Digit::Zero);
    word.put(200, Digit::One);
    let mut key = word;
    assert!(rt; word.matches(&key));
    key.put(200, Digit::Zero);
    assert!(rt; !word.matches(&key), "1 against 0 at digit 200");
    key.put(200, Digit::Any);
    assert!(rt; word.matches(&key), "* agrees with 1");
    assert!(rt;
        Word::blank().matches(&key),
        "a blank word matches every key"
    );
}

#[test]
fn join_prefers_the_first(rt: HostRuntime) {
    let mut first = Word::blank();
    let mut second = Word::blank();
    first.put(1, Digit::Zero);
    second.put(1, Digit::One);
    second.put(130, Digit::One);
    let both = first.join(&second);
    assert_eq!(rt; both.get(1), Digit::Zero);
    assert_eq!(rt; both.get(130), Digit::One);
    assert_eq!(rt; both.get(2), Digit::Any);
    assert!(rt; both != first);
    first.put(130, Digit::One);
    assert!(rt; both == first, "the same digits are the same word");
}
