// The columns of a word: what each digit of the short code tells of a value.
ghost use Rattle.std.specs.Prelude.{◌≡◌, ◌+◌, ◌<◌, if◌then◌else◌, ◌≢◌, nat_lt};

#[derive(Clone, Copy)]
pub enum Column {
    // bit b of v xor floor(v / 2), the value's Gray code
    Lead(u8),
    // layer i: floor((v - i) / h) mod 2, which turns over at i, i + h, i + 2h, ..
    Layer(u8),
}

// The layer at a place counted from 1. The middle one has no digit: the last leading digit tells the same.
pub fn layer_at(place: u8, middle: u8) -> u8
    requires { place < 128 }
    ensures skipped { result ≢ middle }
    ensures counted { result ≡ place + (if nat_lt middle result then 1 else 0) }
{
    if place < middle { place } else { place + 1 }
}
