// A rule of a list: what is looked for, what it gives, and where it stands.
use codes::span::Span;

#[derive(Drop)]
pub struct Rule {
    // names the rule; no two rules of a list have one number
    pub number: u16,
    // a lower rank goes first
    pub rank: u16,
    // what a telegram gets by it
    pub class: u16,
    // the box: a span for each field, or None for "any"
    pub sides: Vec<Option<Span>>,
    // where it stands in the input, from 1
    pub line: u64,
}
