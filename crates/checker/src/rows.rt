// The lines of a script, prepared once: where the entries of each lie, and the variables that they name.
ghost use Rattle.std.specs.Prelude.{◌≡◌, ℕ, ◌+◌, ◌<◌, ◌≤◌, List, map, length, take, MatchOption};
ghost use Rattle.entries.specs.Fields.{lines};
ghost use Rattle.entries.specs.Decoding.{place_of, before_items, row_of, rows_from};

use crate::line_ends::Lines;
use crate::lines::{first, second};
use crate::names::Names;
use entries::{Row, word_of};
use script::{Entry, LineWord};

// For each entry the place among the variables of the name that it is, if it is one.
#[derive(Clone, Copy)]
pub struct Places {
    pub of: [Option<u8>; 4608],
}

// The places of all entries.
pub fn find_places(names: &Names<'_>, table: &[Entry]) -> Places
    requires { length table.now ≤ 4608 }
    ensures { take (length table.now) result.of ≡ map (place_of names.now.text.now names.now.places.now) table.now }
{
    let mut of = [None; 4608];
    for (i, entry) in table.iter().enumerate() {
        of[i] = names.place_of(*entry);
    }
    Places { of }
}

// The rows of a script: the first `count` of these.
#[derive(Clone, Copy)]
pub struct Rows {
    pub count: usize,
    pub rows: [Row; 256],
    pub ghost few: { count ≤ 256 },
}

impl Rows {
    // Those that count.
    pub fn as_slice(&self) -> &[Row]
        ensures { result.now ≡ take self.now.count self.now.rows }
    {
        &self.rows[..self.count]
    }
}

// How many fields stand before the items, the parts or the value of a line.
fn before_items(word: LineWord) -> usize
    ensures { result ≡ before_items word }
{
    match word {
        LineWord::Var | LineWord::Set | LineWord::Rate => 2,
        _ => 1,
    }
}

// The row of a line whose entries begin at `at`.
fn row_of(names: &Names<'_>, at: usize, line: &[Entry]) -> Row
    requires { (0 < length line.now) × (at + length line.now ≤ 4608) }
    ensures { result ≡ row_of names.now.text.now names.now.places.now at line.now }
{
    let word = word_of(first(line).token);
    Row {
        word,
        name: names.place_at(second(line)),
        from: at + before_items(word),
        to: at + line.len(),
    }
}

// The rows of all lines; none, where there are more than 256.
pub fn find_rows(names: &Names<'_>, table: &[Entry]) -> Option<Rows>
    requires { length table.now ≤ 4608 }
    ensures { MatchOption result (256 < length (lines table.now)) (λ x. (take x.count x.rows ≡ rows_from names.now.text.now names.now.places.now 0 (lines table.now)) × (x.count ≡ length (lines table.now))) }
{
    let mut rows = [Row {
        word: LineWord::End,
        name: None,
        from: 0,
        to: 0,
    }; 256];
    let mut count: usize = 0;
    let mut at: usize = 0;
    for line in Lines(table) {
        if count >= 256 {
            return None;
        }
        rows[count] = row_of(names, at, line);
        count += 1;
        at += line.len();
    }
    Some(Rows { count, rows })
}
