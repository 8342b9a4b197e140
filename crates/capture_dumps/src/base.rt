//! The bases in which offsets are written.

ghost use Rattle.std.specs.Prelude.{◌≡◌, ◌||◌};
ghost use Rattle.capture_dumps.specs.Base.{all_bases, base_number, has_value, is_number, some_base, writing};

use crate::part::digit_value;

/// In which base offsets are written.
#[derive(Clone, Copy, Debug, PartialEq, Eq)]
pub(crate) enum Base {
    Hex,
    Decimal,
    Octal,
}

impl Base {
    fn number(self) -> usize
        ensures { result ≡ base_number self }
    {
        match self {
            Base::Hex => 16,
            Base::Decimal => 10,
            Base::Octal => 8,
        }
    }

    /// The digits write the number in this base.
    fn writes(self, digits: &[u8], number: usize) -> bool
        ensures { result ≡ is_number (base_number self) digits.now number }
    {
        let base = self.number();
        let mut left = number;
        let mut rest = digits;
        'digits: while let [front @ .., digit] = rest {
            if !has_value(*digit, left % base) {
                return false;
            }
            left /= base;
            rest = front;
        }
        left == 0
    }
}

/// The digit has this value.
fn has_value(digit: u8, value: usize) -> bool
    ensures { result ≡ has_value digit value }
{
    match digit_value(digit) {
        Some(own) => usize::from(own) == value,
        None => false,
    }
}

/// The bases in which the offsets of a dump may be written.
#[derive(Clone, Copy, Debug, PartialEq, Eq)]
pub(crate) struct Bases {
    hex: bool,
    decimal: bool,
    octal: bool,
}

impl Bases {
    /// All three.
    pub(crate) fn all() -> Bases
        ensures { result ≡ all_bases }
    {
        Bases {
            hex: true,
            decimal: true,
            octal: true,
        }
    }

    /// Those of them in which the digits write the number.
    pub(crate) fn writing(self, digits: &[u8], number: usize) -> Bases
        ensures { result ≡ writing self digits.now number }
    {
        Bases {
            hex: self.hex && Base::Hex.writes(digits, number),
            decimal: self.decimal && Base::Decimal.writes(digits, number),
            octal: self.octal && Base::Octal.writes(digits, number),
        }
    }

    /// There is one.
    pub(crate) fn some(self) -> bool
        ensures { result ≡ some_base self }
    {
        self.hex || self.decimal || self.octal
    }
}
