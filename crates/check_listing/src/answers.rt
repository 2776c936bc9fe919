// A text is read, and then checked for a kind.
ghost use Rattle.std.specs.Prelude.{◌≡◌};
ghost use Rattle.check_listing.specs.Answers.{answer_for, answer_to, table_to};

use checker::{Refused, check};
use number::Kind;
use script::{Draft, Entry, read};

// How many variables and lines an accepted script has.
#[derive(Clone, Copy, PartialEq, Eq, Debug)]
pub struct Size {
    pub variables: usize,
    pub lines: usize,
}

// The size of the script of a draft and the table that it was read into, or why it is refused.
pub fn answer_for<'t, 'a, K: Kind>(draft: Draft<'t>, table: &'a [Entry]) -> Result<Size, Refused>
    ensures { result ≡ answer_for K.Kind.means K.Kind.code draft.entry.text.now draft.entry.fields table.now }
{
    match check::<K>(draft, table) {
        Ok(script) => Ok(Size {
            variables: script.variables(),
            lines: script.lines(),
        }),
        Err((_draft, refusal)) => Err(refusal.into()),
    }
}

// Reads the text into the table and checks it for the kind K.
pub fn answer_to<K: Kind>(text: &[u8], table: &mut [Entry]) -> Result<Size, Refused>
    ensures answer { result ≡ answer_to K.Kind.means K.Kind.code text.now table.old }
    ensures table { table.new ≡ table_to text.now table.old }
{
    let draft = read(text, table)?;
    answer_for::<K>(draft, table)
}
