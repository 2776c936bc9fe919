// What a reading gives: the entries of the fields, and the draft.
ghost use Rattle.std.specs.Prelude.{◌≡◌, true};
ghost use Rattle.script.specs.Checks.{is_in_order};

use crate::places::Place;
use crate::tokens::Token;

mod entering;

pub use entering::read;

// One field of a script: where it stands and what it is.
#[derive(Clone, Copy, PartialEq, Eq, Debug)]
pub struct Entry {
    pub place: Place,
    pub token: Token,
}

impl Entry {
    // What a table can hold before anything is read.
    pub const BLANK: Entry = Entry {
        place: Place {
            line: 0,
            field: 0,
            from: 0,
            to: 0,
        },
        token: Token::Other,
    };
}

// A text that was read, with its numbers of lines and fields. Only `read` makes one,
// and it is moved: whoever takes it on has the only one.
#[derive(Drop)]
pub struct Draft<'t> {
    text: &'t [u8],
    lines: usize,
    fields: usize,
    // nothing is wrong with the text
    pub ghost in_order: { is_in_order text.now ≡ true },
}

impl<'t> Draft<'t> {
    // The text that was read.
    pub fn text(&self) -> &'t [u8]
        ensures { result.now ≡ self.now.text.now }
    {
        self.text
    }

    // How many lines it has.
    pub fn lines(&self) -> usize
        ensures { result ≡ self.now.lines }
    {
        self.lines
    }

    // How many fields it has, and entries of the table it fills.
    pub fn fields(&self) -> usize
        ensures { result ≡ self.now.fields }
    {
        self.fields
    }
}
