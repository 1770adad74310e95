// The plain code: the w binary digits of a value, highest first. A span of 2^j values that starts at a
// multiple of 2^j has * as its lowest j digits, and no other span is accepted.
ghost use Rattle.std.specs.Prelude.{◌≡◌, ℕ, ◌+◌, ◌<◌, ◌≤◌};
ghost use Rattle.std.proofs.Math.Seq.{paste};
ghost use Rattle.ternary.specs.declared.digit.Digit.{Digit};
ghost use Rattle.ternary.specs.Words.{digits};
ghost use Rattle.codes.specs.Spans.{bits_of};
ghost use Rattle.codes.specs.Runs.{Gives};
ghost use Rattle.codes.specs.Settings.{Setting};
ghost use Rattle.simple.specs.Plain.{plain, power, highest, plain_digit, plain_side};
ghost use Rattle.simple.specs.Plains.{highest_length, plain_lawful};

use codes::code::FieldCode;
use codes::run::put_run;
use codes::span::Span;
use codes::width::Width;
use ternary::digit::Digit;
use ternary::refusal::Refusal;
use ternary::word::Word;

// Width 2 to 16.
#[derive(Clone, Copy)]
pub struct PlainCode {
    width: Width,
    ghost least: { 2 ≤ bits_of width },
}

impl PlainCode {
    // A width of 2 to 16 bits; any other is refused by 2.
    pub fn new(bits: u8) -> Result<PlainCode, Refusal>
        ensures { Setting (λ c. bits_of c.width) 2 16 bits result }
    {
        if bits < 2 {
            return Err(Refusal::BadSetting);
        }
        let width = Width::new(bits)?;
        Ok(PlainCode { width })
    }

    // Writes a digit for each bit, that of the highest first.
    #[tactic(auto, using(crate::specs::Plains::highest_length, crate::specs::Plains::highest_at))]
    fn put_bits<F: Fn(u8) -> Digit>(self, digit: F, at: u16, out: &mut Word)
        requires told { (b : ℕ) → b < bits_of self.width → F.pre digit b }
        requires room { at + bits_of self.width ≤ 256 }
        ensures { (f : ℕ → Digit) → Gives (F.post digit) (bits_of self.width) f → digits out.new ≡ paste (digits out.old) at (highest f (bits_of self.width)) (bits_of self.width) }
    {
        let bits = self.width.bits();
        put_run(u16::from(bits), |i| digit(bits - 1 - i as u8), at, out);
    }
}

// Whether n is 2^j for some j up to the width.
#[tactic(auto, using(crate::specs::Plains::power_log_alone, crate::specs::Plains::no_power))]
fn is_power(width: Width, n: u32) -> bool
    ensures { result ≡ power (bits_of width) n }
{
    n.is_power_of_two() && n.ilog2() <= u32::from(width.bits())
}

// The digit of bit b of a value.
#[tactic(auto, using(ternary::proofs::Bits::bit_test))]
fn value_digit(value: u16, b: u8) -> Digit
    requires { b < 16 }
    ensures { result ≡ plain_digit value b }
{
    Digit::from((value >> b) & 1 == 1)
}

// The digit of bit b of a side of a box.
fn side_digit(side: Option<Span>, b: u8) -> Digit
    requires { b < 16 }
    ensures { result ≡ plain_side side b }
{
    match side {
        Some(span) if span.len <= 1u32 << b => value_digit(span.low, b),
        _ => Digit::Any,
    }
}

impl FieldCode for PlainCode {
    ghost meaning = { λ c. plain (bits_of c.width) };

    ghost lawful = { λ c. plain_lawful (bits_of c.width) c.least c.width.most };

    fn fields(&self) -> u16 {
        1 // field
    }

    fn size(&self) -> u16 {
        u16::from(self.width.bits()) // a digit for each bit
    }

    fn width(&self, _field: u16) -> Width {
        self.width // of the one field
    }

    #[tactic(auto, using(crate::specs::Plains::power_is, std::proofs::lemmas::Nat::pow_pos))]
    fn accepts(&self, _field: u16, span: Span) -> bool {
        is_power(self.width, span.len) && u32::from(span.low) % span.len == 0
    }

    fn reach(&self, _field: u16) -> u16 {
        0 // only the value itself
    }

    // Values and boxes apart, as in the trait: what differs is the digits that are told.
    fn put_values(&self, values: &[u16], at: u16, out: &mut Word) {
        let value = values[0];
        self.put_bits(|b| value_digit(value, b), at, out);
    }

    fn put_box(&self, sides: &[Option<Span>], at: u16, out: &mut Word) {
        let side = sides[0];
        self.put_bits(|b| side_digit(side, b), at, out);
    }
}
