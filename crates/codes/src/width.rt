// The width of a field: its values are 0 to 2^w - 1, with w from 1 to 16.
ghost use Rattle.std.specs.Prelude.{◌≤◌};

use ternary::refusal::Refusal;

#[derive(Clone, Copy, PartialEq, Eq, Debug)]
pub struct Width {
    bits: u8,
    ghost least: { 1 ≤ bits },
    ghost most: { bits ≤ 16 },
}

impl Width {
    ghost use Rattle.std.specs.Prelude.{◌≡◌, ◌-◌, ◌^◌};
    ghost use Rattle.codes.specs.Spans.{bits_of};
    ghost use Rattle.codes.specs.Settings.{Setting};

    // A width of 1 to 16 bits; any other is refused by 2.
    pub fn new(bits: u8) -> Result<Width, Refusal>
        ensures { Setting bits_of 1 16 bits result }
    {
        if !(1..=16).contains(&bits) {
            return Err(Refusal::BadSetting);
        }
        Ok(Width { bits })
    }

    pub fn bits(self) -> u8
        ensures { result ≡ bits_of self }
    {
        self.bits
    }

    // How many values there are: 2^w.
    pub fn count(self) -> u32
        ensures { result ≡ 2 ^ bits_of self }
    {
        1u32 << self.bits
    }

    // The highest value, which is also the mask of the w lowest bits: 2^w - 1.
    pub fn highest(self) -> u16
        ensures { result ≡ 2 ^ bits_of self - 1 }
    {
        (self.count() - 1) as u16
    }
}
