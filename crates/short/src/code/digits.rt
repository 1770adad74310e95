// Single digits of the short code's words.
ghost use Rattle.std.specs.Prelude.{◌≡◌, ◌^◌, ◌<◌, ◌≤◌, slice_index_or, true};
ghost use Rattle.ternary.specs.Words.{digit_of, over};
ghost use Rattle.codes.specs.Spans.{bits_of};
ghost use Rattle.short.specs.declared.column.Column.TheVariants.{Lead};
ghost use Rattle.short.specs.Short.{columns, word_size, answer_of, ending};
ghost use Rattle.short.specs.Digits.{HasColumn, HasColumn-prop, full_span, ends_stay, ends_digit};

use crate::code::ShortCode;
use crate::column::{Column, layer_at};
use codes::span::Span;
use ternary::digit::Digit;

// A span of length h, by its first value and its last one.
#[derive(Clone, Copy)]
pub struct FullSpan {
    first: u16,
    last: u16,
}

// A code and one of its columns.
#[derive(Clone, Copy)]
pub struct CodeColumn {
    code: ShortCode,
    column: Column,
    ghost stands: { HasColumn (bits_of code.width) code.log column } by { HasColumn-prop (bits_of code.width) code.log column },
}

impl CodeColumn {
    // What a value answers: bit b of v xor floor(v / 2), or whether floor((v - i) / h) is odd. That floor is taken
    // downward: at a value below the layer the quotient is -1.
    #[tactic(auto, using(ternary::proofs::Bits::bit_test, crate::specs::Floors::layer_under, crate::specs::Floors::layer_from), unfolding(crate::specs::Short::lead))]
    fn answer(self, value: u16) -> bool
        ensures { result ≡ answer_of self.code.log value self.column }
    {
        match self.column {
            Column::Lead(b) => ((value ^ (value >> 1)) >> b) & 1 == 1,
            Column::Layer(i) if value < u16::from(i) => true, // -1 is odd
            Column::Layer(i) => ((value - u16::from(i)) >> self.code.log) % 2 == 1,
        }
    }

    // A digit of the word of a value.
    pub(super) fn value_digit(self, value: u16) -> Digit
        ensures { result ≡ digit_of true (answer_of self.code.log value self.column) }
    {
        Digit::from(self.answer(value))
    }

    // Whether a span of length h keeps its digit: a leading one where its first and its last value agree, which all of
    // its values then do, and that of the layer where it begins.
    fn keeps(self, span: FullSpan) -> bool
        ensures { result ≡ ends_stay self.code.log span self.column }
    {
        match self.column {
            Column::Lead(_) => self.answer(span.last) == self.answer(span.first),
            Column::Layer(i) => u16::from(i) == span.first % self.code.longest(),
        }
    }

    // A digit of the word of a span of length h.
    fn full_digit(self, span: FullSpan) -> Digit
        ensures { result ≡ ends_digit self.code.log span self.column }
    {
        if self.keeps(span) {
            Digit::from(self.answer(span.first))
        } else {
            Digit::Any
        }
    }

    // A digit of the word that is joined from those of two spans of length h.
    pub(super) fn joined_digit(self, first: FullSpan, second: FullSpan) -> Digit
        ensures { result ≡ over (ends_digit self.code.log first self.column) (ends_digit self.code.log second self.column) }
    {
        self.full_digit(first).over(self.full_digit(second))
    }
}

impl ShortCode {
    // What digit j of a word tells.
    #[tactic(auto, using(crate::specs::Columns::column_lead, crate::specs::Columns::column_counted))]
    pub(super) fn column(self, j: u16) -> CodeColumn
        requires { j < word_size (bits_of self.width) self.log }
        ensures code { result.code ≡ self }
        ensures column { result.column ≡ slice_index_or (columns (bits_of self.width) self.log) j (Lead 0) }
    {
        let bits = u16::from(self.width.bits());
        let leads = bits - u16::from(self.log) + 1;
        let column = if j < leads {
            Column::Lead((bits - 1 - j) as u8)
        } else {
            Column::Layer(layer_at((j - leads + 1) as u8, (self.longest() / 2) as u8))
        };
        CodeColumn { code: self, column }
    }

    // The span of length h from `start` on, modulo 2^w.
    pub(super) fn full_span(self, start: u16) -> FullSpan
        ensures { result ≡ full_span (bits_of self.width) self.log start }
    {
        let last = (u32::from(start) + u32::from(self.longest() - 1)) % self.width.count();
        FullSpan {
            first: start,
            last: last as u16,
        }
    }

    // Where the span of length h begins that ends with the span: low end plus length less h, modulo 2^w.
    #[tactic(auto, using(crate::specs::Lawful::big))]
    pub(super) fn ending_with(self, span: Span) -> u16
        requires { span.len ≤ 2 ^ self.log }
        ensures { result ≡ ending (bits_of self.width) self.log span.low span.len }
    {
        let count = self.width.count();
        ((u32::from(span.low) + span.len + (count - u32::from(self.longest()))) % count) as u16
    }
}
