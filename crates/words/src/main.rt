// Prints the words that the codes make, so that they can be compared with another program's.
//
// The questions, their answers and the format of both are in crates/questions and docs/codes.md.
#![tactic(auto)]

use questions::answer::answer_input;

fn main(rt: HostRuntime) -> anyhow::Result<()> {
    answer_input(&rt)
}
