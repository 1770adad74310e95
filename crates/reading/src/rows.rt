// How many rows the chip has.
ghost use Rattle.std.specs.Prelude.{◌≡◌, ◌<◌, ◌≤◌, ◌⊎◌, MatchResult};
ghost use Rattle.listing.specs.declared.fault.Cause.TheVariants.{BadRows};

use listing::fault::Cause;

// From 1 to 256.
#[derive(Clone, Copy, PartialEq, Eq, Debug)]
pub struct RowCount {
    rows: u16,
    ghost least: { 1 ≤ rows },
    ghost most: { rows ≤ 256 },
}

impl TryFrom<u16> for RowCount {
    type Error = Cause;

    ghost try_from_gives = { λ n r. MatchResult r (λ c. c.rows ≡ n) (λ cause. (cause ≡ BadRows) × ((n < 1) ⊎ (256 < n))) };

    fn try_from(rows: u16) -> Result<RowCount, Cause> {
        if (1..=256).contains(&rows) {
            Ok(RowCount { rows })
        } else {
            Err(Cause::BadRows)
        }
    }
}

impl From<RowCount> for u16 {
    ghost from_gives = { λ c n. n ≡ c.rows };

    fn from(count: RowCount) -> u16 {
        count.rows
    }
}
