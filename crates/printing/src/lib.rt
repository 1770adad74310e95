// The lines that are printed of a rule list: rows, refusals and answers. docs/classify.md has the format.
#![tactic(auto)]

pub mod report;
