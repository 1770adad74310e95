// The interface of field codes. It is for those who write a code; users call `coding`.
//
// A code's meaning is its fields (width, accepted spans, reach), its count of digits and its words, and
// depends on nothing but its settings. Its law is that the word of a value list matches the word of a box
// exactly when every value lies in its span. A box has one side for each field: a span, or None for "any".
ghost use Rattle.std.specs.Prelude.{◌≡◌, ◌+◌, ◌<◌, ◌≤◌, min, length, slice_index_or};
ghost use Rattle.codes.specs.Spans.{bits_of};
ghost use Rattle.codes.specs.Meaning.{Meaning, Lawful, Small, Values, Boxes, no_field};
ghost use Rattle.codes.specs.Writing.{ValuesPut, BoxPut};

use crate::span::Span;
use crate::width::Width;
use ternary::word::Word;

pub trait FieldCode {
    ghost meaning: { Self → Meaning };

    // The count of fields, which stops at 65,535. It has no body here for codes of one field, and `width` none either: such a
    // body would break what is promised of codes with more.
    fn fields(&self) -> u16
        ensures { result ≡ min 65535 (length (meaning self.now).fields) };

    // The count of digits, which stops at 65,535.
    fn size(&self) -> u16
        ensures { result ≡ min 65535 (meaning self.now).size };

    // The three calls on a field ask that the code has it. A type for a field would hold its code, and so stand in place of
    // `self`, since no clause could tell that both are one code.
    fn width(&self, field: u16) -> Width
        requires { field < min 65535 (length (meaning self.now).fields) }
        ensures { bits_of result ≡ (slice_index_or (meaning self.now).fields field no_field).width };

    // Whether the code takes a span that stands in the field.
    fn accepts(&self, field: u16, span: Span) -> bool
        requires { field < min 65535 (length (meaning self.now).fields) }
        ensures { result ≡ (slice_index_or (meaning self.now).fields field no_field).accepts span };

    // How far around any value a span is accepted.
    fn reach(&self, field: u16) -> u16
        requires { field < min 65535 (length (meaning self.now).fields) }
        ensures { result ≡ (slice_index_or (meaning self.now).fields field no_field).reach };

    // Writes the word of the values from digit `at` on, and no other digit. Where and into what are two parameters, as an
    // index and its slice are: of a writer that held both, each clause would also have to say where it stands afterwards.
    fn put_values(&self, values: &[u16], at: u16, out: &mut Word)
        requires small { Small (meaning self.now) }
        requires good { Values (meaning self.now).fields values.now }
        requires within { at + (meaning self.now).size ≤ 256 }
        ensures { ValuesPut (meaning self.now) values.now at out.old out.new };

    // Writes the word of the box from digit `at` on, and no other digit.
    fn put_box(&self, sides: &[Option<Span>], at: u16, out: &mut Word)
        requires small { Small (meaning self.now) }
        requires good { Boxes (meaning self.now).fields sides.now }
        requires within { at + (meaning self.now).size ≤ 256 }
        ensures { BoxPut (meaning self.now) sides.now at out.old out.new };

    ghost lawful: { (c : Self) → Lawful (meaning c) };
}
