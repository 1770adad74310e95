// Field codes: how a telegram's values and a rule's box become ternary digits, so that the words match
// exactly when the box holds the values.
//
// `code` is the interface with its law, `joined` makes one code of two, and `coding` has the
// calls for users, which refuse what does not fit. docs/codes.md has the rules.
#![tactic(auto)]

pub mod code;
pub mod coding;
pub mod joined;
pub mod run;
pub mod span;
pub mod width;
