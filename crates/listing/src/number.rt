// Decimal numbers: one digit or more, and nothing else.
//
// A call for each type: a generic one would have to say of every type what `parse` says of these two.
ghost use Rattle.std.specs.Prelude.{◌≡◌, MatchOption, ◌≢◌, slice_index};
ghost use Rattle.std.specs.Str.Parse.{IsNumeral};
ghost use Rattle.listing.specs.Numbers.{Decimal};

// A number from 0 to 65535.
pub fn number(text: &str) -> Option<u16>
    ensures { Decimal 16 text.now result }
{
    unsigned(text)?.parse::<u16>().ok()
}

// A length, from 0 to 4294967295.
pub fn length(text: &str) -> Option<u32>
    ensures { Decimal 32 text.now result }
{
    unsigned(text)?.parse::<u32>().ok()
}

// The text, unless a `+` stands in front: `parse` takes one, and a number here has none.
fn unsigned(text: &str) -> Option<&str>
    ensures { MatchOption result (IsNumeral 10 text.now → ⊥) (λ t. (t.now ≡ text.now) × (slice_index text.now 0 ≢ 43)) }
{
    if text.as_bytes().first() == Some(&b'+') {
        None
    } else {
        Some(text)
    }
}
