// Where a run goes on behind each line, found once.
ghost use Rattle.std.specs.Prelude.{◌≡◌, ℕ, ◌≤◌, List, map, length, take, Option};
ghost use Rattle.script.specs.declared.reading.Entry.{Entry};
ghost use Rattle.entries.specs.declared.rows.Row.{Row};
ghost use Rattle.entries.specs.Decoding.{rows_lines};
ghost use Rattle.checker.specs.Jumps.{Leads};

use entries::Row;
use motion::words::{next_statement, past_body};
use script::LineWord;

// Where a run goes on behind a line: at the line of the next statement, or at `past`, where the body that begins
// behind the line is passed over.
#[derive(Clone, Copy)]
pub struct Jump {
    pub next: u16,
    pub past: u16,
}

// The jumps behind each line, which is counted from 0.
#[derive(Clone, Copy)]
pub struct Jumps {
    pub behind: [Jump; 257],
}

// The words of the lines, one for each row.
fn find_words(rows: &[Row]) -> [LineWord; 256]
    requires { length rows.now ≤ 256 }
    ensures { take (length rows.now) result ≡ map (λ (x : Row). x.word) rows.now }
{
    let mut words = [LineWord::End; 256];
    for (i, row) in rows.iter().enumerate() {
        words[i] = row.word;
    }
    words
}

// Where a run goes on behind each line of these rows.
pub fn find_jumps(rows: &[Row]) -> Jumps
    requires { length rows.now ≤ 256 }
    ensures { (es : List Entry) (xs : List (Option ℕ)) → Leads (rows_lines es xs rows.now) result }
{
    let words = find_words(rows);
    let words = &words[..rows.len()];
    let mut behind = [Jump { next: 0, past: 0 }; 257];
    for n in 0..rows.len() + 1 {
        behind[n] = Jump {
            next: (next_statement(words, n) + 1) as u16,
            past: (past_body(words, n) + 1) as u16,
        };
    }
    Jumps { behind }
}
