// Rules in the rows of a chip: what a rule's row holds, what a telegram's key holds, and that the chip then
// answers what the rule list gives. docs/chips.md has the layout of a row.
#![tactic(auto)]

pub mod board;
pub mod place;
pub mod row;
pub mod rule;
pub mod tag;
