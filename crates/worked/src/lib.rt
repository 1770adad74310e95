// Worked examples of words, codes, chips, rules and rule lists, as tests. They stand in a crate of their own, since a crate
// with tests is proved twice.
#![tactic(auto)]

#[cfg(test)]
mod coding;
#[cfg(test)]
mod listed;
#[cfg(test)]
mod placing;
#[cfg(test)]
mod rowchip;
#[cfg(test)]
mod short_code;
#[cfg(test)]
mod words;
