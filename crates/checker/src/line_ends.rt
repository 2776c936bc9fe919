// Entries by lines.
ghost use Rattle.std.specs.Prelude.{◌≡◌, ◌==◌, ◌≤◌, length, position};
ghost use Rattle.std.specs.Iterator.{YieldsFirstRef, item_count};
ghost use Rattle.script.specs.declared.reading.Entry.{Entry};
ghost use Rattle.entries.specs.Fields.{rest_of_line, lines};

use script::Entry;

// Where the next line begins, which it does with a field 1.
fn next_line(entries: &[Entry]) -> Option<usize>
    ensures { result ≡ position (λ (e : Entry). e.place.field == 1) entries.now }
{
    entries.iter().position(|e| e.place.field == 1)
}

// How many of these entries come before the next line.
fn rest_of_line(entries: &[Entry]) -> usize
    ensures within { result ≤ length entries.now }
    ensures end { result ≡ rest_of_line entries.now }
{
    next_line(entries).unwrap_or(entries.len())
}

// The lines of a table, one after the other.
#[derive(Drop)]
pub struct Lines<'a>(pub &'a [Entry]);

impl<'a> Iterator for Lines<'a> {
    type Item = &'a [Entry];

    ghost next_gives = { YieldsFirstRef (λ s. lines s.0.now) };

    ghost remaining = { item_count (λ s. lines s.0.now) };

    fn next(&mut self) -> Option<&'a [Entry]> {
        let (_, others) = self.0.split_first()?;
        let (line, rest) = self.0.split_at(1 + rest_of_line(others));
        self.0 = rest;
        Some(line)
    }
}
