// Questions about the words that the codes make, one a line, and their answers.
//
// A line names one code or two joined ones, each with its width and the short code with its longest span too, and asks
// for the word of values or of a box: `plain 4 value 5`, `short 4 4 fence 2 box 5+4 any`. The answer is the code's
// digits, or `no R P L` with a refusal's number, place and layer. docs/codes.md has the format.
#![tactic(auto)]

pub mod answer;
pub mod question;
