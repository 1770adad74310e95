// The one place where a code's digits are stored into a word.
//
// A run is a list of digits that is told digit by digit: what a code of one field makes of a value or of a
// side of a box.
ghost use Rattle.std.specs.Prelude.{◌≡◌, ℕ, ◌+◌, ◌<◌, ◌≤◌, List, length, slice_index_or, slice_set};
ghost use Rattle.std.proofs.Math.Seq.{paste};
ghost use Rattle.ternary.specs.declared.digit.Digit.{Digit};
ghost use Rattle.ternary.specs.declared.digit.Digit.TheVariants.{Any};
ghost use Rattle.ternary.specs.Words.{digits};
ghost use Rattle.codes.specs.Runs.{Tells};

use ternary::digit::Digit;
use ternary::word::Word;

// Writes a run of digits from digit `at` on, and no other digit: `digit(i)` is the run's digit i.
#[tactic(auto, using(crate::proofs::Runs::digit_written))]
pub fn put_run<F: Fn(u16) -> Digit>(count: u16, digit: F, at: u16, out: &mut Word)
    requires told { (i : ℕ) → i < count → F.pre digit i }
    requires room { at + count ≤ 256 }
    ensures { (run : List Digit) → length run ≡ count → Tells (F.post digit) run → digits out.new ≡ paste (digits out.old) at run count }
{
    for i in 0..count {
        out.put((at + i) as u8, digit(i));
    }
}
