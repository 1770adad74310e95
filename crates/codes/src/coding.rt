// The coding calls for users: they take any code and any input, and refuse what does not fit.
//
// The lines of refusal are tried in their order, each over all fields from 0 up: 5, 8, 9, 10. All of them
// come before the first digit is written, so a refused call leaves the caller's word alone.
//
// Values and boxes have calls of their own, here and in `FieldCode`: their words and their lines of refusal differ, and a
// trait over both would have to say of each what these say.
ghost use Rattle.std.specs.Prelude.{◌≡◌, ℕ, ◌<◌, ◌≤◌, Bool, List, length, min, Option, OnOk, slice_index_or};
ghost use Rattle.codes.specs.declared.span.Span.{Span};
ghost use Rattle.codes.specs.Meaning.{Field, Small, no_field};
ghost use Rattle.codes.specs.Writing.{ValuesPut, BoxPut};
ghost use Rattle.codes.specs.Coding.{values_refusal, box_refusal, Coded, first_bad, failing, Tests, span_ok, taken_ok, is_small, count_refusal, told_of, LowestBadLaw};

use crate::code::FieldCode;
use crate::span::Span;
use ternary::refusal::Refusal;
use ternary::word::Word;

// At most 8 fields and 255 digits, so that a row holds the code's digits behind digit 0.
fn is_small<F: FieldCode>(code: &F) -> bool
    ensures { result ≡ is_small (F.FieldCode.meaning code.now) }
{
    code.fields() <= 8 && code.size() <= 255
}

// Whether the code takes any list of n elements: 5 or 8 where it takes none.
fn check_count<F: FieldCode>(code: &F, n: usize) -> Result<(), Refusal>
    ensures told { told_of result ≡ count_refusal (F.FieldCode.meaning code.now) n }
    ensures good { OnOk result (Small (F.FieldCode.meaning code.now) × (n ≡ length (F.FieldCode.meaning code.now).fields)) }
{
    if !is_small(code) {
        return Err(Refusal::CodeTooLarge);
    }
    if n != usize::from(code.fields()) {
        return Err(Refusal::WrongFieldCount);
    }
    Ok(())
}

// Whether each element passes, as `passes(field, element)` tells; else the lowest field whose element does not. A loop,
// since `position` on a chain asks that the test may be called at any number, and there are only so many fields.
fn check_each<T: Copy, P: Fn(u16, T) -> bool>(elements: &[T], passes: P) -> Result<(), u16>
    requires few { length elements.now ≤ 8 }
    requires told { (i : ℕ) (x : T) → i < length elements.now → P.pre passes i x }
    ensures { (ok : Field → T → Bool) (fs : List Field) → length fs ≡ length elements.now → Tests (P.post passes) ok fs → failing result ≡ first_bad ok 0 fs elements.now }
{
    for (i, element) in elements.iter().enumerate() {
        if !passes(i as u16, *element) {
            return Err(i as u16);
        }
    }
    Ok(())
}

// Whether a side of a box is "any" or stands in its field. This and the next have names: as closures in `check_box` they
// left its proof open.
fn stands_in<F: FieldCode>(code: &F, field: u16, side: Option<Span>) -> bool
    requires { field < min 65535 (length (F.FieldCode.meaning code.now).fields) }
    ensures { result ≡ span_ok (slice_index_or (F.FieldCode.meaning code.now).fields field no_field) side }
{
    side.is_none_or(|span| span.in_field(code.width(field)))
}

// Whether a side of a box is "any" or a span that the code accepts.
fn is_taken<F: FieldCode>(code: &F, field: u16, side: Option<Span>) -> bool
    requires { field < min 65535 (length (F.FieldCode.meaning code.now).fields) }
    ensures { result ≡ taken_ok (slice_index_or (F.FieldCode.meaning code.now).fields field no_field) side }
{
    side.is_none_or(|span| code.accepts(field, span))
}

// Whether the code takes these values: 5, 8, or 9 at the lowest field whose value exceeds it.
pub fn check_values<F: FieldCode>(code: &F, values: &[u16]) -> Result<(), Refusal>
    ensures { told_of result ≡ values_refusal (F.FieldCode.meaning code.now) values.now }
{
    check_count(code, values.len())?;
    check_each(
        values,
        |field, value| code.width(field).count() > u32::from(value),
    )
    .map_err(|large| Refusal::OutsideField { field: large })
}

// Whether the code takes this box: 5, 8, 9 at the lowest field whose span does not stand in it, or 10 at the lowest
// field whose span the code does not accept.
pub fn check_box<F: FieldCode>(code: &F, sides: &[Option<Span>]) -> Result<(), Refusal>
    ensures { told_of result ≡ box_refusal (F.FieldCode.meaning code.now) sides.now }
{
    check_count(code, sides.len())?;
    check_each(sides, |field, side| stands_in(code, field, side)).map_err(
        |field| Refusal::OutsideField { field },
    )?;
    check_each(sides, |field, side| is_taken(code, field, side)).map_err(
        |field| Refusal::SpanNotTaken { field },
    )
}

// Writes the values' word into `out` from digit 1 on; digit 0 and those behind the code's stay.
#[tactic(auto, using(crate::proofs::Checks::values_good))]
pub fn code_values<F: FieldCode>(code: &F, values: &[u16], out: &mut Word) -> Result<(), Refusal>
    ensures { Coded (values_refusal (F.FieldCode.meaning code.now) values.now) (ValuesPut (F.FieldCode.meaning code.now) values.now 1 out.old out.new) out.old out.new result }
{
    check_values(code, values)?;
    code.put_values(values, 1, out);
    Ok(())
}

// Writes the box's word into `out` from digit 1 on; digit 0 and those behind the code's stay.
#[tactic(auto, using(crate::proofs::Checks::box_good))]
pub fn code_box<F: FieldCode>(
    code: &F,
    sides: &[Option<Span>],
    out: &mut Word,
) -> Result<(), Refusal>
    ensures { Coded (box_refusal (F.FieldCode.meaning code.now) sides.now) (BoxPut (F.FieldCode.meaning code.now) sides.now 1 out.old out.new) out.old out.new result }
{
    check_box(code, sides)?;
    code.put_box(sides, 1, out);
    Ok(())
}

// A refusal at a field names the lowest one that its line fits, and there is one exactly when its line fits some.
pub fn lowest_bad_law()
    ensures { LowestBadLaw ℕ × LowestBadLaw (Option Span) }
{}
