// The sides of a box: `any`, `V`, `L..H` or `L+N`.
ghost use Rattle.std.specs.Prelude.{◌≡◌};
ghost use Rattle.listing.specs.Sides.{Between, BetweenLaw, top_at};
ghost use Rattle.listing.specs.Words.{RangeRead, RunRead};

use crate::number::{length, number};
use codes::code::FieldCode;
use codes::span::Span;

// Why a word is no side of a field.
#[derive(Clone, Copy, PartialEq, Eq, Debug)]
pub enum SideFault {
    Unread,
    // an end of L..H is above the field's highest value
    Leaves,
}

// A side from its word: the span, or None for "any". `V` and `L+N` are not held to the field: the code refuses
// what does not fit.
pub fn read_side(word: &str, highest: u16) -> Result<Option<Span>, SideFault> {
    if word == "any" {
        return Ok(None);
    }
    let span = if let Some((low, high)) = word.split_once("..") {
        read_range(low, high, highest)
    } else {
        let (low, len) = word.split_once('+').unwrap_or((word, "1"));
        read_run(low, len)
    };
    span.map(Some)
}

// `L..H`, cut in two. The ends and the highest value go together twice, as text here and as numbers below: a struct
// of them would be made and taken apart once each.
fn read_range(low: &str, high: &str, highest: u16) -> Result<Span, SideFault>
    ensures { RangeRead highest low.now high.now result }
{
    let low = number(low).ok_or(SideFault::Unread)?;
    let high = number(high).ok_or(SideFault::Unread)?;
    span_between(low, high, highest).ok_or(SideFault::Leaves)
}

// `L+N`, cut in two.
fn read_run(low: &str, len: &str) -> Result<Span, SideFault>
    ensures { RunRead low.now len.now result }
{
    let low = number(low).ok_or(SideFault::Unread)?;
    let len = length(len).ok_or(SideFault::Unread)?;
    Ok(Span { low, len })
}

// The values from `low` to `high` of a field, both included; where `high` is the lower one, on past the field's
// highest value and from 0 up to it. None where an end is no value of the field.
pub fn span_between(low: u16, high: u16, highest: u16) -> Option<Span>
    ensures { Between highest low high result }
{
    if low > highest || high > highest {
        return None;
    }
    let end = if low <= high {
        u32::from(high)
    } else {
        u32::from(high) + u32::from(highest) + 1
    };
    Some(Span {
        low,
        len: end + 1 - u32::from(low),
    })
}

// The highest value of a field; behind the code's last field sides are read with width 16.
pub fn highest_at<F: FieldCode>(code: &F, field: usize) -> u16
    ensures { result ≡ top_at (F.FieldCode.meaning code.now).fields field }
{
    if field < usize::from(code.fields()) {
        code.width(field as u16).highest()
    } else {
        65535
    }
}

// The span from L to H holds what its line says.
pub fn between_law()
    ensures { BetweenLaw }
{}
