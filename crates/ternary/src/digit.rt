// A digit of a ternary word.
ghost use Rattle.std.specs.Prelude.{◌≡◌, Bool, true};
ghost use Rattle.ternary.specs.Words.{digit_of, over, symbol};

#[derive(Clone, Copy, PartialEq, Eq, Debug)]
pub enum Digit {
    Zero,
    One,
    // *: agrees with every digit
    Any,
}

impl Digit {
    // This digit, or the other where this one is *.
    pub fn over(self, other: Digit) -> Digit
        ensures { result ≡ over self other }
    {
        match self {
            Digit::Zero | Digit::One => self,
            Digit::Any => other,
        }
    }

    // The character that the digit is written as: one `match`, whose name says more than `char::from` would.
    pub fn symbol(self) -> char
        ensures { result ≡ symbol self }
    {
        match self {
            Digit::Zero => '0',
            Digit::One => '1',
            Digit::Any => '*',
        }
    }
}

// The digit of a bit that is known: 1 for true, 0 for false.
impl From<bool> for Digit {
    ghost from_gives = { λ bit r. r ≡ digit_of true bit };

    fn from(bit: bool) -> Digit {
        if bit { Digit::One } else { Digit::Zero }
    }
}
