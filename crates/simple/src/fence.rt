// The fence code: 2^w - 1 digits numbered from 1, of which digit i tells whether the value is at least i.
//
//     w = 2    0 is 000    1 is 100    2 is 110    3 is 111    the span from 1 to 2 is 1*0
ghost use Rattle.std.specs.Prelude.{◌≡◌, ℕ, ◌+◌, ◌-◌, ◌^◌, ◌<◌, ◌≤◌};
ghost use Rattle.std.proofs.Math.Seq.{paste};
ghost use Rattle.ternary.specs.declared.digit.Digit.{Digit};
ghost use Rattle.ternary.specs.Words.{digits};
ghost use Rattle.codes.specs.Spans.{bits_of};
ghost use Rattle.codes.specs.Runs.{Gives};
ghost use Rattle.codes.specs.Settings.{Setting};
ghost use Rattle.simple.specs.Fence.{fence, fenced, fence_digit, fence_side};
ghost use Rattle.simple.specs.Fences.{fenced_length, fence_lawful};

use codes::code::FieldCode;
use codes::run::put_run;
use codes::span::Span;
use codes::width::Width;
use ternary::digit::Digit;
use ternary::refusal::Refusal;
use ternary::word::Word;

// Width 1 to 6.
#[derive(Clone, Copy)]
pub struct FenceCode {
    width: Width,
    ghost most: { bits_of width ≤ 6 },
}

impl FenceCode {
    // A width of 1 to 6 bits; any other is refused by 2.
    pub fn new(bits: u8) -> Result<FenceCode, Refusal>
        ensures { Setting (λ c. bits_of c.width) 1 6 bits result }
    {
        if bits > 6 {
            return Err(Refusal::BadSetting);
        }
        let width = Width::new(bits)?;
        Ok(FenceCode { width })
    }

    // Writes the digits 1 to 2^w - 1.
    #[tactic(auto, using(crate::specs::Fences::fenced_length, crate::specs::Fences::fenced_at))]
    fn put_posts<F: Fn(u32) -> Digit>(self, digit: F, at: u16, out: &mut Word)
        requires told { (i : ℕ) → i < 2 ^ bits_of self.width → F.pre digit i }
        requires room { at + (2 ^ bits_of self.width - 1) ≤ 256 }
        ensures { (f : ℕ → Digit) → Gives (F.post digit) (2 ^ bits_of self.width) f → digits out.new ≡ paste (digits out.old) at (fenced f (bits_of self.width)) (2 ^ bits_of self.width - 1) }
    {
        put_run(self.width.highest(), |i| digit(u32::from(i) + 1), at, out);
    }
}

// Digit i of a value.
fn value_digit(value: u16, i: u32) -> Digit
    ensures { result ≡ fence_digit value i }
{
    Digit::from(i <= u32::from(value))
}

// The number after the last one of a span that does not go on at 0.
fn end(span: Span) -> u64
    ensures { result ≡ span.low + span.len }
{
    u64::from(span.low) + u64::from(span.len)
}

// Digit i of a side of a box: 1 up to the low end, 0 above the high end, * between.
fn side_digit(side: Option<Span>, i: u32) -> Digit
    ensures { result ≡ fence_side side i }
{
    match side {
        Some(span) if i <= u32::from(span.low) => Digit::One,
        Some(span) if end(span) <= u64::from(i) => Digit::Zero,
        _ => Digit::Any,
    }
}

impl FieldCode for FenceCode {
    ghost meaning = { λ c. fence (bits_of c.width) };

    ghost lawful = { λ c. fence_lawful (bits_of c.width) c.width.least c.most };

    fn fields(&self) -> u16 {
        1 // field
    }

    fn size(&self) -> u16 {
        self.width.highest() // digits 1 to 2^w - 1
    }

    fn width(&self, _field: u16) -> Width {
        self.width // of the one field
    }

    fn accepts(&self, _field: u16, span: Span) -> bool {
        end(span) <= u64::from(self.width.count())
    }

    fn reach(&self, _field: u16) -> u16 {
        self.width.highest() // the whole field
    }

    // Values and boxes apart, as in the trait: what differs is the digits that are told.
    fn put_values(&self, values: &[u16], at: u16, out: &mut Word) {
        let value = values[0];
        self.put_posts(|i| value_digit(value, i), at, out);
    }

    fn put_box(&self, sides: &[Option<Span>], at: u16, out: &mut Word) {
        let side = sides[0];
        self.put_posts(|i| side_digit(side, i), at, out);
    }
}
