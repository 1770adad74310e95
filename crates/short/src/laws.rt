// Theorems about the short code's definitions.
ghost use Rattle.short.specs.Floor.{FloorLaw};
ghost use Rattle.short.specs.Laws.{JoinLaw, EndsLaw};
ghost use Rattle.short.specs.Examples.{WorkedExamples};

// What "rounded downward" means in a layer digit.
#[tactic(auto, using(crate::specs::Floors::floor_law))]
pub fn floor_law()
    ensures { FloorLaw }
{}

// The two words that a shorter span's word is joined from never disagree at a digit.
pub fn join_law()
    ensures { JoinLaw }
{}

// The values of a span of length h agree on a leading digit exactly when the first and the last one do.
#[tactic(auto, using(crate::proofs::Ends::agreeing_ends))]
pub fn ends_law()
    ensures { EndsLaw }
{}

// The worked examples come out as they are written.
pub fn worked_examples()
    ensures { WorkedExamples }
{}
