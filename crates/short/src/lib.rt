// The short code of one field: every span of up to h values, wherever it starts, is one word.
//
//     w = 4, h = 4     5 is 011 10     the span from 5 to 8 is *1* 1*
//
// A word has w - k + 1 leading digits, of the value's Gray code, and h - 2 layer digits (h = 2^k). The leading digits name
// two neighbouring blocks of h values, the layer digit that is kept cuts them where the span begins. docs/short-code.md
// has the rules, a drawing and the reason why it works.
#![tactic(auto)]

pub mod code;
mod column;
pub mod laws;
