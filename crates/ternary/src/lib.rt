// Ternary words of 256 digits, and the refusals of every layer.
//
// A word is what one row of a ternary memory holds and what is put to it as a key.
// docs/words.md and docs/refusals.md have the rules.
#![tactic(auto)]

pub mod digit;
pub mod laws;
mod plane;
pub mod refusal;
pub mod text;
pub mod word;
