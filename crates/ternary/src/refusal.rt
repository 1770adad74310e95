// Why a call says no: one enum for all layers.
//
// A refusal has a number, a place and a layer; `told` in specs/Refusals.antt has them for each case,
// and docs/refusals.md says when each comes. A refused call changes nothing.
ghost use Rattle.std.specs.Prelude.{◌≡◌};
ghost use Rattle.ternary.specs.Refusals.{told, layer_number, RefusalsLaw};

// The part of the product that refused.
#[derive(Clone, Copy, PartialEq, Eq, Debug)]
pub enum Layer {
    Chip = 0,
    Code = 1,
    Sorter = 2,
    Stream = 3,
}

impl Layer {
    // A method, and no `From`: a layer is told by number, and not one.
    pub fn number(self) -> u8
        ensures { result ≡ layer_number self }
    {
        self as u8
    }
}

#[derive(Clone, Copy, PartialEq, Eq, Debug)]
pub enum Refusal {
    // 1: the row is not on the chip
    NoSuchRow { row: u16 },
    // 2: a code's setting is outside its limits
    BadSetting,
    // 5: the code has more than 8 fields or 255 digits
    CodeTooLarge,
    // 8: the count of fields is not the code's
    WrongFieldCount,
    // 9: a value or low end exceeds the field, or a length is 0 or above 2^w
    OutsideField { field: u16 },
    // 10: the code does not accept the span
    SpanNotTaken { field: u16 },
}

// Calls and no `From`: they tell a refusal's number, place and layer, by which the product speaks of it.
impl Refusal {
    pub fn number(self) -> u8
        ensures { result ≡ (told self).number }
    {
        match self {
            Refusal::NoSuchRow { .. } => 1,
            Refusal::BadSetting => 2,
            Refusal::CodeTooLarge => 5,
            Refusal::WrongFieldCount => 8,
            Refusal::OutsideField { .. } => 9,
            Refusal::SpanNotTaken { .. } => 10,
        }
    }

    // The row or field that the refusal is about, and 0 where it names none.
    pub fn place(self) -> u32
        ensures { result ≡ (told self).place }
    {
        match self {
            Refusal::NoSuchRow { row } => u32::from(row),
            Refusal::OutsideField { field } | Refusal::SpanNotTaken { field } => u32::from(field),
            Refusal::BadSetting | Refusal::CodeTooLarge | Refusal::WrongFieldCount => 0,
        }
    }

    pub fn layer(self) -> Layer
        ensures { layer_number result ≡ (told self).layer }
    {
        match self {
            Refusal::NoSuchRow { .. } => Layer::Chip,
            Refusal::CodeTooLarge => Layer::Sorter,
            Refusal::BadSetting
            | Refusal::WrongFieldCount
            | Refusal::OutsideField { .. }
            | Refusal::SpanNotTaken { .. } => Layer::Code,
        }
    }
}

// A refusal is fixed by its number, place and layer.
#[tactic(auto, using(crate::proofs::Refuse::refusals_law))]
pub fn refusals_law()
    ensures { RefusalsLaw }
{}
