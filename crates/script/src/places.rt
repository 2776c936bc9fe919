// Where the fields of a text stand, and the cursor that goes from field to field.
ghost use Rattle.std.specs.Prelude.{◌≡◌, ◌≤◌, length, position};
ghost use Rattle.script.specs.Places.{places, left, ends_field, bytes_at};

use crate::tokens::{Field, classify};

// Where a field stands: its line and its number on that line, both from 1,
// and its bytes in the text, from the first to before `to`.
#[derive(Clone, Copy, PartialEq, Eq, Debug)]
pub struct Place {
    pub line: usize,
    pub field: usize,
    pub from: usize,
    pub to: usize,
}

impl Place {
    // The bytes at this place; none, where the text has no such place.
    pub fn bytes<'a>(self, text: &'a [u8]) -> &'a [u8]
        ensures { result.now ≡ bytes_at text.now self }
    {
        text.get(self.from..self.to).unwrap_or(&[])
    }
}

// Goes through a text by lines and fields. It stands at the beginning of a field,
// after `line` whole lines and `field` fields of the line under way.
#[derive(Drop)]
pub struct Cursor<'a> {
    text: &'a [u8],
    at: usize,
    line: usize,
    field: usize,
    ghost counted: { (at ≤ length text.now) × (line ≤ at) × (field ≤ at) },
}

// How many bytes stand before the first comma or line feed.
fn field_length(rest: &[u8]) -> Option<usize>
    ensures { result ≡ position ends_field rest.now }
{
    rest.iter().position(|b| matches!(b, b',' | b'\n'))
}

impl<'a> Cursor<'a> {
    // At the beginning of a text.
    pub fn new(text: &'a [u8]) -> Cursor<'a>
        ensures text { result.text.now ≡ text.now }
        ensures left { left result.text.now result.line result.field result.at ≡ places text.now }
    {
        Cursor {
            text,
            at: 0,
            line: 0,
            field: 0,
        }
    }
}

impl<'a> Iterator for Cursor<'a> {
    type Item = (Field<'a>, Place);

    ghost use Rattle.std.specs.Iterator.{item_count};
    ghost use Rattle.script.specs.Ahead.{entries_left, Gives};

    ghost next_gives = { Gives };

    ghost remaining = { item_count entries_left };

    // The next field that a comma or a line feed ends, and its place; the cursor then stands behind it.
    fn next(&mut self) -> Option<(Field<'a>, Place)> {
        let from = self.at;
        let to = from + field_length(&self.text[from..])?;
        let field = classify(&self.text[from..to]);
        let place = Place {
            line: self.line + 1,
            field: self.field + 1,
            from,
            to,
        };
        self.at = to + 1;
        if self.text[to] == b'\n' {
            self.line += 1;
            self.field = 0;
        } else {
            self.field += 1;
        }
        Some((field, place))
    }
}
