// The two simple codes of one field: plain binary digits, and a fence of thresholds. docs/codes.md has the rules.
#![tactic(auto)]

pub mod fence;
pub mod plain;
