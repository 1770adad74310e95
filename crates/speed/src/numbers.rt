// Numbers that look random, from a linear congruential generator: so cheap that the time measured is the code's.
use codes::span::Span;

#[derive(Drop)]
pub struct Numbers {
    state: u32,
}

impl Numbers {
    pub fn new() -> Numbers {
        Numbers { state: 1 }
    }

    // The high bits, since the low ones of such a generator repeat soon.
    pub fn value(&mut self) -> u16 {
        self.state = self.state.wrapping_mul(1664525).wrapping_add(1013904223);
        (self.state >> 16) as u16
    }

    // A span of 1 to 128 values, from any value on.
    pub fn span(&mut self) -> Span {
        let low = self.value();
        let len = 1 + ((self.state >> 9) & 127);
        Span { low, len }
    }
}
