// The lines that are printed: of a rule in its row, of a rule that is refused, and of a telegram.
ghost use Rattle.std.specs.Prelude.{◌≡◌, ◌++◌, Some, codes, decimal};
ghost use Rattle.printing.specs.Reports.{reason_text, refused_text};

use listing::rule::Rule;
use listing::telegram::Telegram;
use std::fmt;
use ternary::refusal::Refusal;
use ternary::text::Digits;

// What a refusal's number stands for: one text a case, and only in the lines that are printed here.
pub fn reason(refusal: Refusal) -> &'static str
    ensures { result.now ≡ reason_text refusal }
{
    match refusal {
        Refusal::NoSuchRow { .. } => "the row is not on the chip",
        Refusal::BadSetting => "a setting is outside its limits",
        Refusal::CodeTooLarge => "the code has more than 8 fields or 255 digits",
        Refusal::WrongFieldCount => "the count of fields is not the code's",
        Refusal::OutsideField { .. } => {
            "a value or low end exceeds the field, or a length is 0 or above its count of values"
        }
        Refusal::SpanNotTaken { .. } => "the code does not accept the span",
    }
}

// A refusal with its number, place, layer and cause.
#[derive(Drop)]
pub struct Refused(pub Refusal);

impl fmt::Display for Refused {
    ghost output = { λ x. Some (refused_text x.0) };

    fn fmt<W: fmt::Write>(&self, f: &mut fmt::Formatter<W>) -> fmt::Result {
        let Refused(refusal) = self;
        write!(
            f,
            "refused by {}, place {}, layer {}: {}",
            refusal.number(),
            refusal.place(),
            refusal.layer().number(),
            reason(*refusal)
        )
    }
}

// A rule that has its row.
#[derive(Drop)]
pub struct PlacedRule<'a> {
    pub row: u16,
    pub rule: &'a Rule,
    // digit 0 of its word, and the code's digits behind it
    pub digits: Digits,
}

impl fmt::Display for PlacedRule<'_> {
    fn fmt<W: fmt::Write>(&self, f: &mut fmt::Formatter<W>) -> fmt::Result {
        let PlacedRule { row, rule, digits } = self;
        write!(
            f,
            "row {row} rule {} class {} digits {digits}",
            rule.number, rule.class
        )
    }
}

// A rule that the code or the chip refuses.
#[derive(Drop)]
pub struct RefusedRule<'a> {
    pub rule: &'a Rule,
    pub refusal: Refusal,
}

impl fmt::Display for RefusedRule<'_> {
    ghost output = { λ x. Some (codes "line " ++ (decimal x.rule.now.line ++ (codes ": rule " ++ (decimal x.rule.now.number ++ (codes " " ++ refused_text x.refusal))))) };

    fn fmt<W: fmt::Write>(&self, f: &mut fmt::Formatter<W>) -> fmt::Result {
        let RefusedRule { rule, refusal } = self;
        write!(
            f,
            "line {}: rule {} {}",
            rule.line,
            rule.number,
            Refused(*refusal)
        )
    }
}

// A telegram with the number and class of its rule, or none, or why it is refused.
#[derive(Drop)]
pub struct Answered<'a> {
    pub telegram: &'a Telegram,
    pub answer: Result<Option<(u16, u16)>, Refusal>,
}

impl fmt::Display for Answered<'_> {
    fn fmt<W: fmt::Write>(&self, f: &mut fmt::Formatter<W>) -> fmt::Result {
        let Answered { telegram, answer } = self;
        match answer {
            Ok(Some((number, class))) => write!(f, "{telegram} class {class} rule {number}"),
            Ok(None) => write!(f, "{telegram} none"),
            Err(refusal) => write!(
                f,
                "line {}: {telegram} {}",
                telegram.line,
                Refused(*refusal)
            ),
        }
    }
}
