// Rule lists: rules, telegrams, the numbers and sides that they are written with, and the rules in their order.
//
// `list` keeps rules in strictly rising order, no two with one number. docs/classify.md has the format.
#![tactic(auto)]

pub mod fault;
pub mod list;
pub mod number;
pub mod order;
pub mod rule;
pub mod side;
pub mod telegram;
