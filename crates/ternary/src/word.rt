// A word of 256 digits, as two planes of 256 bits: the digits that are not *, and those that are 1.
//
//     digit   0 1 2 3 4 ..
//             0 1 * 1 * ..
//     care    1 1 0 1 0 ..
//     ones    0 1 0 1 0 ..        (0 wherever care is 0)
ghost use Rattle.ternary.specs.Planes.{Within};

use crate::digit::Digit;
use crate::plane::Plane;

#[derive(Clone, Copy, Debug)]
pub struct Word {
    care: Plane,
    ones: Plane,
    // a digit that is * is not marked as 1, so equal words have equal planes
    ghost within: { Within care ones },
}

impl Word {
    ghost use Rattle.std.specs.Prelude.{◌≡◌, false, replicate, slice_index_or, slice_set, IsTrue, ◌↔◌};
    ghost use Rattle.ternary.specs.declared.digit.Digit.{Digit};
    ghost use Rattle.ternary.specs.Planes.{HasBits};
    ghost use Rattle.ternary.specs.Words.{digits, fits, joining};

    // The word whose digits are all *.
    #[tactic(auto, using(crate::proofs::Planes::blank_digits))]
    pub fn blank() -> Word
        ensures { digits result ≡ replicate 256 Digit.Any }
    {
        Word {
            care: Plane::empty(),
            ones: Plane::empty(),
        }
    }

    // Digit i.
    #[tactic(auto, using(crate::proofs::Planes::get_digit))]
    pub fn get(&self, i: u8) -> Digit
        ensures { result ≡ slice_index_or (digits self.now) i Digit.Any }
    {
        if self.care.get(i) {
            Digit::from(self.ones.get(i))
        } else {
            Digit::Any
        }
    }

    // Makes digit i what is given, and leaves every other as it was.
    #[tactic(auto, using(crate::proofs::Planes::put_digit))]
    pub fn put(&mut self, i: u8, digit: Digit)
        ensures { digits self.new ≡ slice_set (digits self.old) i digit }
    {
        self.care.set(i, digit != Digit::Any);
        self.ones.set(i, digit == Digit::One);
    }

    // Each pair of digits is equal or contains a *.
    pub fn matches(&self, other: &Word) -> bool
        ensures { result ≡ fits (digits self.now) (digits other.now) }
    {
        self.clashes(other).is_empty()
    }

    // The digits at which both words care and their ones differ: none exactly where the words match.
    fn clashes(&self, other: &Word) -> Plane
        ensures { IsTrue (fits (digits self.now) (digits other.now)) ↔ HasBits result (λ p. false) }
    {
        self.care & other.care & (self.ones ^ other.ones)
    }

    // At each digit this word's, or the other's where this one's is *.
    #[tactic(auto, using(crate::proofs::Planes::join_digits))]
    pub fn join(&self, other: &Word) -> Word
        ensures { digits result ≡ joining (digits self.now) (digits other.now) }
    {
        Word {
            care: self.care | other.care,
            ones: self.ones | (other.ones & !self.care),
        }
    }
}

// By hand, since a derived `==` promises equal planes, and this one equal digits.
impl PartialEq for Word {
    ghost use Rattle.ternary.specs.Words.{same_word};
    ghost use Rattle.ternary.specs.Sameness.{same_word_equiv};
    ghost use Rattle.std.specs.Cmp.{partial_equiv_from_equiv};

    ghost eq = { same_word };

    ghost laws = { partial_equiv_from_equiv same_word_equiv };

    #[tactic(auto, using(crate::proofs::Equality::same_planes))]
    fn eq(&self, other: &Word) -> bool {
        self.care == other.care && self.ones == other.ones
    }
}

impl Eq for Word {
    ghost use Rattle.ternary.specs.Sameness.{same_word_equiv};

    ghost laws = { same_word_equiv };
}
