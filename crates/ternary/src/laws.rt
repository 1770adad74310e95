// What holds of all words.
ghost use Rattle.ternary.specs.Words.{WordsLaw, SameLaw};

// Words with the same digits are one word, and `==` is true exactly where the digits are equal: it is equality of meanings.
#[tactic(auto, using(crate::proofs::Equality::words_law, crate::specs::Sameness::same_law))]
pub fn words_law()
    ensures words { WordsLaw }
    ensures same { SameLaw }
{}
