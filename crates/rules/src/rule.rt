// A rule as its row holds it: its number and class are the row's tag, and its box gives the row's word.
use codes::span::Span;

#[derive(Clone, Copy, PartialEq, Eq, Debug)]
pub struct RuleRow<'a> {
    pub number: u16,
    pub class: u16,
    // one side for each field: a span, or None for "any"
    pub sides: &'a [Option<Span>],
}
