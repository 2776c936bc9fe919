// A text is read into the caller's table.
ghost use Rattle.std.specs.Prelude.{◌≡◌, ℕ, ◌≤◌, length, take, IfOk, MatchResult, OnOk};
ghost use Rattle.script.specs.Places.{places};
ghost use Rattle.script.specs.Lines.{rows, written};
ghost use Rattle.script.specs.Reading.{read_of, scan_of, summary, filled};
ghost use Rattle.script.specs.Laws.{Told, Alone, Entered};

use super::{Draft, Entry};
use crate::checks::{check_lines, check_text};
use crate::places::Cursor;
use crate::refusals::{Reason, Refusal};

fn write_entries(text: &[u8], table: &mut [Entry])
    requires { length (places text.now) ≤ length table.old }
    ensures { table.new ≡ filled text.now table.old }
{
    for (i, (field, place)) in Cursor::new(text).enumerate() {
        table[i] = Entry {
            place,
            token: field.token(),
        };
    }
}

fn read_checked<'t>(text: &'t [u8], table: &mut [Entry]) -> Result<Draft<'t>, Refusal>
    ensures answer { summary result ≡ scan_of text.now (length table.old) }
    ensures table { MatchResult result (λ _. table.new ≡ filled text.now table.old) (λ _. table.new ≡ table.old) }
    ensures text { IfOk result (λ d. d.text.now ≡ text.now) }
{
    let lines = check_text(text)?;
    let fields = check_lines(text)?;
    if fields > table.len() {
        return Err(Refusal::new(Reason::TableTooShort, 0, 0));
    }
    write_entries(text, table);
    Ok(Draft {
        text,
        lines,
        fields,
    })
}

// Reads a text. Accepted: the table holds an entry for each field, in order, and what stood behind them.
// Refused: the table is as it was.
pub fn read<'t>(text: &'t [u8], table: &mut [Entry]) -> Result<Draft<'t>, Refusal>
    ensures answer { summary result ≡ read_of text.now (length table.old) }
    ensures table { MatchResult result (λ _. table.new ≡ filled text.now table.old) (λ _. table.new ≡ table.old) }
    ensures text { IfOk result (λ d. d.text.now ≡ text.now) }
    ensures rules { Told text.now (length table.old) (summary result) }
    ensures alone { Alone text.now (length table.old) }
    ensures again { OnOk result (written (rows text.now) ≡ text.now) }
    ensures entered { IfOk result (λ d. Entered text.now (take d.fields table.new)) }
{
    read_checked(text, table)
}
