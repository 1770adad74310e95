// A span of a field's values: a low end and a length. It may run past the highest value and go on at 0.
ghost use Rattle.std.specs.Prelude.{◌≡◌, ◌+◌, ◌-◌, ◌%◌, ◌^◌, Some, None};
ghost use Rattle.codes.specs.Spans.{bits_of, holds, in_field};

use crate::width::Width;

#[derive(Clone, Copy, PartialEq, Eq, Debug)]
pub struct Span {
    pub low: u16,
    // how many values it holds
    pub len: u32,
}

impl Span {
    // (value - low) mod 2^w is below the length.
    pub fn holds(self, width: Width, value: u16) -> bool
        ensures { result ≡ holds (bits_of width) (Some self) value }
    {
        self.offset(width, value) < self.len
    }

    // How far the value lies above the low end, modulo 2^w.
    fn offset(self, width: Width, value: u16) -> u32
        ensures { result ≡ (value + (2 ^ bits_of width - self.low % 2 ^ bits_of width)) % 2 ^ bits_of width }
    {
        u32::from(value.wrapping_sub(self.low) & width.highest())
    }

    // The low end is one of the field's values, and the length is from 1 to 2^w.
    pub fn in_field(self, width: Width) -> bool
        ensures { result ≡ in_field (bits_of width) (Some self) }
    {
        let count = width.count();
        u32::from(self.low) < count && (1..=count).contains(&self.len)
    }
}
