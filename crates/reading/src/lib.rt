// The lines of a rule list as text: what each one holds, or its fault. docs/classify.md has the format.
#![tactic(auto)]

pub mod line;
pub mod rows;
