// How far the rates of a run depend on one another.
ghost use Rattle.std.specs.Prelude.{◌≡◌, ℕ, Bool, false, not, ◌||◌, List, [], map, length, ◌==◌, slice_index_or};
ghost use Rattle.motion.specs.Chains.{among, touch, touches, leading};
ghost use Rattle.entries.specs.Decoding.{or_none, factor_of, parts_in, lines_over};
ghost use Rattle.checker.specs.Chains.{is_empty, is_deep, deep_first, chains_check, Marks, is_rate, rate_rows, rate_of, row_name};

use crate::refusals::{Reason, Refusal};
use entries::{Resolved, Row};
use script::{LineWord, Token};

// Variables that are marked, by their places.
#[derive(Clone, Copy)]
pub struct Level {
    pub marks: [bool; 256],
}

impl Level {
    // No variable is marked.
    fn none() -> Level
        ensures { Marks result.marks [] }
    {
        Level {
            marks: [false; 256],
        }
    }

    // One variable more is marked.
    fn mark(&mut self, place: Option<u8>)
        ensures { (x : ℕ) → slice_index_or self.new.marks x false ≡ (x == or_none place || slice_index_or self.old.marks x false) }
    {
        self.marks[place.unwrap_or(16) as usize] = true;
    }

    // Whether one is marked.
    fn any(&self) -> bool
        ensures { (xs : List ℕ) → Marks self.now.marks xs → result ≡ not (is_empty xs) }
    {
        self.marks.contains(&true)
    }

    // Whether what a part multiplies is marked.
    fn has(&self, token: Token, place: Option<u8>) -> bool
        ensures { (xs : List ℕ) → Marks self.now.marks xs → result ≡ touch xs (factor_of token place) }
    {
        matches!(token, Token::Name) && self.marks[place.unwrap_or(16) as usize]
    }

    // Whether one of the parts names a variable that is marked.
    fn touches(&self, parts: Resolved<'_>) -> bool
        ensures { (xs : List ℕ) → Marks self.now.marks xs → result ≡ touches xs (parts_in parts.entry) }
    {
        let places = parts.variables.chunks_exact(2);
        for (part, place) in parts.entries.chunks_exact(2).zip(places) {
            if self.has(part[1].token, place[1]) {
                return true;
            }
        }
        false
    }
}

// The names of these rates.
fn named(rates: &[Row]) -> Level
    ensures { Marks result.marks (map row_name rates.now) }
{
    let mut level = Level::none();
    for r in rates {
        level.mark(r.name);
    }
    level
}

// The names whose rates name one that is marked.
fn leading(rates: &[Row], table: Resolved<'_>, level: Level) -> Level
    ensures { (xs : List ℕ) → Marks level.marks xs → Marks result.marks (leading xs (map (rate_of table.entry) rates.now)) }
{
    let mut next = Level::none();
    for r in rates {
        if level.touches(table.between(r.from, r.to)) {
            next.mark(r.name);
        }
    }
    next
}

// Whether a walk of five names starts somewhere in these rates.
fn is_deep(rates: &[Row], table: Resolved<'_>) -> bool
    ensures { result ≡ is_deep (map (rate_of table.entry) rates.now) }
{
    let mut level = named(rates);
    for _ in 0..4u8 {
        level = leading(rates, table, level);
    }
    level.any()
}

// Whether this is the word of a rate line.
fn is_rate(word: LineWord) -> bool
    ensures { result ≡ is_rate word }
{
    word == LineWord::Rate
}

// How many rate rows stand first.
fn rate_count(rows: &[Row]) -> usize
    ensures { result ≡ length (rate_rows rows.now) }
{
    rows.iter().take_while(|r| is_rate(r.word)).count()
}

// Whether the first row is a run whose rates have a walk of five names.
fn is_deep_run(rows: &[Row], table: Resolved<'_>) -> bool
    ensures { result ≡ deep_first (lines_over table.entry rows.now) }
{
    let Some((row, below)) = rows.split_first() else {
        return false;
    };
    row.word == LineWord::Run && is_deep(&below[..rate_count(below)], table)
}

// 15: the first run whose rates have a walk of five names.
pub fn check_chains(rows: &[Row], table: Resolved<'_>) -> Result<(), Refusal>
    ensures { result ≡ chains_check 1 (lines_over table.entry rows.now) }
{
    for i in 0..rows.len() {
        if is_deep_run(&rows[i..], table) {
            return Err(Refusal::new(Reason::Chains, i + 1, 0));
        }
    }
    Ok(())
}
