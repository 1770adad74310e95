// The short code as a field code.
ghost use Rattle.std.specs.Prelude.{◌≡◌, ◌^◌, ◌<◌, ◌≤◌, ◌+◌};
ghost use Rattle.std.proofs.Math.Seq.{paste};
ghost use Rattle.ternary.specs.Words.{digits};
ghost use Rattle.codes.specs.Spans.{bits_of};
ghost use Rattle.codes.specs.Meaning.{Taken};
ghost use Rattle.short.specs.Setting.{Made, Logarithm};
ghost use Rattle.short.specs.Short.{short, short_field, word_size, value_word, side_word};
ghost use Rattle.short.specs.Lawful.{short_lawful};

use codes::code::FieldCode;
use codes::run::put_run;
use codes::span::Span;
use codes::width::Width;
use ternary::digit::Digit;
use ternary::refusal::Refusal;
use ternary::word::Word;

mod digits;

// Width 2 to 16, and spans of up to h = 2^log values: h is from 2 to 2^(w - 1), and at most 128.
#[derive(Clone, Copy)]
pub struct ShortCode {
    width: Width,
    log: u8,
    ghost least: { 1 ≤ log },
    ghost room: { log < bits_of width },
    ghost most: { log ≤ 7 },
}

// The logarithm k of the longest span, or None where there is no code of that setting.
#[tactic(auto, using(crate::proofs::Logs::logarithm, crate::proofs::Logs::no_setting))]
fn log_of(width: Width, longest: u16) -> Option<u8>
    ensures { Logarithm (bits_of width) longest result }
{
    if !longest.is_power_of_two() || !(2..=128).contains(&longest) {
        return None;
    }
    let log = longest.ilog2() as u8;
    (log < width.bits()).then_some(log)
}

impl ShortCode {
    // A width of 2 to 16 bits, and the longest span, a power of two from 2 to 2^(bits - 1) and at most 128; any other
    // setting is refused by 2.
    pub fn new(bits: u8, longest: u16) -> Result<ShortCode, Refusal>
        ensures { Made (λ c. bits_of c.width) (λ c. c.log) bits longest result }
    {
        let width = Width::new(bits)?;
        let log = log_of(width, longest).ok_or(Refusal::BadSetting)?;
        Ok(ShortCode { width, log })
    }

    // How many values the longest span has that the code accepts: h.
    pub fn longest(self) -> u16
        ensures { result ≡ 2 ^ self.log }
    {
        1u16 << self.log
    }

    // Writes the word of a value.
    #[tactic(auto, using(crate::specs::Lawful::value_length, crate::specs::Lawful::value_at))]
    fn put_value(self, value: u16, at: u16, out: &mut Word)
        requires { at + word_size (bits_of self.width) self.log ≤ 256 }
        ensures { digits out.new ≡ paste (digits out.old) at (value_word (bits_of self.width) self.log value) (word_size (bits_of self.width) self.log) }
    {
        put_run(self.size(), |i| self.column(i).value_digit(value), at, out);
    }

    // Writes the word of a side. That of a span is joined from those of the two spans of length h that start and that end
    // with it.
    #[tactic(auto, using(crate::specs::Lawful::any_length, crate::specs::Lawful::any_at))]
    fn put_side(self, side: Option<Span>, at: u16, out: &mut Word)
        requires taken { Taken (short_field (bits_of self.width) self.log) side }
        requires room { at + word_size (bits_of self.width) self.log ≤ 256 }
        ensures { digits out.new ≡ paste (digits out.old) at (side_word (bits_of self.width) self.log side) (word_size (bits_of self.width) self.log) }
    {
        match side {
            None => put_run(self.size(), |_| Digit::Any, at, out),
            Some(span) => {
                let starting = self.full_span(span.low);
                let ending = self.full_span(self.ending_with(span));
                put_run(
                    self.size(),
                    |i| self.column(i).joined_digit(starting, ending),
                    at,
                    out,
                );
            }
        }
    }
}

impl FieldCode for ShortCode {
    ghost meaning = { λ c. short (bits_of c.width) c.log };

    ghost lawful = { λ c. short_lawful (bits_of c.width) c.log c.least c.room c.width.most };

    fn fields(&self) -> u16 {
        1 // field
    }

    fn size(&self) -> u16 {
        u16::from(self.width.bits() - self.log) + self.longest() - 1 // w - k + 1 leading digits and h - 2 layers
    }

    fn width(&self, _field: u16) -> Width {
        self.width // of the one field
    }

    fn accepts(&self, _field: u16, span: Span) -> bool {
        (1..=u32::from(self.longest())).contains(&span.len)
    }

    #[tactic(auto, using(codes::proofs::Powers::even_power, std::proofs::lemmas::Nat::pow_pos))]
    fn reach(&self, _field: u16) -> u16 {
        self.longest() / 2 - 1 // the span around a value then has at most h - 1 values
    }

    fn put_values(&self, values: &[u16], at: u16, out: &mut Word) {
        self.put_value(values[0], at, out);
    }

    fn put_box(&self, sides: &[Option<Span>], at: u16, out: &mut Word) {
        self.put_side(sides[0], at, out);
    }
}
