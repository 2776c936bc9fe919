// The numbers of a line, field by field, read with no question whether the line has its form:
// what is read is written again, and compared with the line.
ghost use Rattle.std.specs.Prelude.{◌≡◌, []};
ghost use Rattle.handover.specs.Scans.{blank, grown, with_digit, pair_of_number, fields_of, scanned};

use arrayvec::ArrayVec;
use number::Pair;

// The number of a field, as far as it is read: what stands above the slash, and below it where there is one.
#[derive(Clone, Copy, Default)]
pub struct Number {
    pub minus: bool,
    pub top: u32,
    pub bottom: Option<u32>,
}

// The numbers that are read, as many as the longest line has.
pub type Fields = ArrayVec<Number, 21>;

// A value with one digit more; one that is too large already stays.
fn grow(value: u32, d: u8) -> u32
    ensures { result ≡ grown value d }
{
    if value <= 214748364 {
        value * 10 + d as u32
    } else {
        value
    }
}

impl Number {
    // One digit more, above the slash or below it.
    fn add_digit(self, d: u8) -> Number
        ensures { result ≡ with_digit self d }
    {
        match self.bottom {
            None => Number {
                top: grow(self.top, d),
                ..self
            },
            Some(bottom) => Number {
                bottom: Some(grow(bottom, d)),
                ..self
            },
        }
    }

    // As a pair, over 1 where there is no slash.
    pub fn pair(self) -> Pair
        ensures { result ≡ pair_of_number self }
    {
        let top = self.top as i64;
        Pair {
            a: if self.minus { -top } else { top },
            b: self.bottom.unwrap_or(1) as i64,
        }
    }
}

// The fields of a line.
pub fn scan(line: &[u8]) -> Fields
    ensures { fields_of result ≡ scanned [] blank line.now }
{
    let mut fields = Fields::new();
    let mut number = Number::default();
    for b in line {
        match *b {
            b'0'..=b'9' => number = number.add_digit(*b - b'0'),
            b',' | b'\n' => {
                if !fields.is_full() {
                    fields.push(number);
                }
                number = Number::default();
            }
            b'-' => number.minus = true,
            b'/' => number.bottom = number.bottom.or(Some(0)),
            _ => {}
        }
    }
    fields
}
