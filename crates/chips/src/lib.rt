// Ternary memories: what every chip answers and keeps, and a chip over memory that its caller lends.
//
// A chip has rows, each empty or holding a word and a tag. Put to a key, it answers with the lowest row whose word matches.
#![tactic(auto)]

pub mod chip;
pub mod row;
pub mod rows;
