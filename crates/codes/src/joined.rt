// Two codes joined, of any make: the first one's fields and digits stand before the second's. It is again a
// code, so three fields are a code joined to a joined code.
ghost use Rattle.std.specs.Prelude.{◌≡◌, ◌<◌, min, length, take, drop};
ghost use Rattle.codes.specs.Meaning.{Small};
ghost use Rattle.codes.specs.Joined.{joined, Located};
ghost use Rattle.codes.specs.Joins.{joined_lawful};

use crate::code::FieldCode;
use crate::span::Span;
use crate::width::Width;
use ternary::word::Word;

#[derive(Clone, Copy)]
pub struct JoinedCode<P, Q> {
    first: P,
    second: Q,
}

impl<P, Q> JoinedCode<P, Q> {
    pub fn new(first: P, second: Q) -> JoinedCode<P, Q>
        ensures { (result.first ≡ first) × (result.second ≡ second) }
    {
        JoinedCode { first, second }
    }
}

// Which of the two codes a field belongs to, and which of that one's fields it is.
enum Part {
    First(u16),
    Second(u16),
}

impl<P: FieldCode, Q: FieldCode> JoinedCode<P, Q> {
    fn part(&self, field: u16) -> Part
        requires { field < min 65535 (length (joined (P.FieldCode.meaning self.now.first) (Q.FieldCode.meaning self.now.second)).fields) }
        ensures { Located (P.FieldCode.meaning self.now.first).fields (Q.FieldCode.meaning self.now.second).fields field result }
    {
        let n = self.first.fields();
        if field < n {
            Part::First(field)
        } else {
            Part::Second(field - n)
        }
    }

    // A list for all fields in two: for the first code's fields, and for the second's.
    fn split<'a, T>(&self, elements: &'a [T]) -> (&'a [T], &'a [T])
        requires small { Small (joined (P.FieldCode.meaning self.now.first) (Q.FieldCode.meaning self.now.second)) }
        requires all { length elements.now ≡ length (joined (P.FieldCode.meaning self.now.first) (Q.FieldCode.meaning self.now.second)).fields }
        ensures front { result.0.now ≡ take (length (P.FieldCode.meaning self.now.first).fields) elements.now }
        ensures back { result.1.now ≡ drop (length (P.FieldCode.meaning self.now.first).fields) elements.now }
    {
        elements.split_at(usize::from(self.first.fields()))
    }
}

impl<P: FieldCode, Q: FieldCode> FieldCode for JoinedCode<P, Q> {
    ghost meaning = { λ c. joined (P.FieldCode.meaning c.first) (Q.FieldCode.meaning c.second) };

    ghost lawful = { λ c. joined_lawful _ _ (P.FieldCode.lawful c.first) (Q.FieldCode.lawful c.second) };

    fn fields(&self) -> u16 {
        self.first.fields().saturating_add(self.second.fields())
    }

    fn size(&self) -> u16 {
        self.first.size().saturating_add(self.second.size())
    }

    // Width, spans and reach are asked of the part that has the field. One function for the three would take each call
    // twice, once for each code, with a clause for each.
    fn width(&self, field: u16) -> Width {
        match self.part(field) {
            Part::First(i) => self.first.width(i),
            Part::Second(i) => self.second.width(i),
        }
    }

    fn accepts(&self, field: u16, span: Span) -> bool {
        match self.part(field) {
            Part::First(i) => self.first.accepts(i, span),
            Part::Second(i) => self.second.accepts(i, span),
        }
    }

    fn reach(&self, field: u16) -> u16 {
        match self.part(field) {
            Part::First(i) => self.first.reach(i),
            Part::Second(i) => self.second.reach(i),
        }
    }

    // Values and boxes apart, as in the trait: a call for both would take each code's call as a closure, clauses and all.
    #[tactic(auto, using(crate::proofs::Halves::values_count, crate::proofs::Halves::values_front, crate::proofs::Halves::values_back, crate::proofs::Halves::values_written))]
    fn put_values(&self, values: &[u16], at: u16, out: &mut Word) {
        let (front, back) = self.split(values);
        self.first.put_values(front, at, out);
        self.second.put_values(back, at + self.first.size(), out);
    }

    #[tactic(auto, using(crate::proofs::Halves::box_count, crate::proofs::Halves::box_front, crate::proofs::Halves::box_back, crate::proofs::Halves::box_written))]
    fn put_box(&self, sides: &[Option<Span>], at: u16, out: &mut Word) {
        let (front, back) = self.split(sides);
        self.first.put_box(front, at, out);
        self.second.put_box(back, at + self.first.size(), out);
    }
}
