// Whether a table holds what the reader wrote.
ghost use Rattle.std.specs.Prelude.{◌≡◌, ◌↔◌, Bool, IsTrue};
ghost use Rattle.script.specs.Tokens.{token_in};
ghost use Rattle.script.specs.Places.{places};
ghost use Rattle.entries.specs.Tables.{same_table};

use script::{Cursor, Entry, Field, Place};

// Whether an entry is that of a field and its place.
fn is_entry_of(entry: Entry, field: Field, place: Place) -> bool
    ensures { IsTrue result ↔ (entry ≡ record { place = place; token = token_in field.entry }) }
{
    let token = field.token();
    entry == Entry { place, token }
}

// Whether the table holds the entries of the text's fields, and no others.
pub fn same_table(text: &[u8], table: &[Entry]) -> bool
    ensures { result ≡ same_table text.now (places text.now) table.now }
{
    let mut cursor = Cursor::new(text);
    for entry in table {
        let Some((field, place)) = cursor.next() else {
            return false;
        };
        if !is_entry_of(*entry, field, place) {
            return false;
        }
    }
    cursor.next().is_none()
}
