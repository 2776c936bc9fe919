// A draft is checked for a kind of number.
ghost use Rattle.std.specs.Prelude.{◌≡◌, ℕ, ◌+◌, ◌<◌, ◌≤◌, List, map, length, take, IfOk, MatchOption, MatchResult};
ghost use Rattle.entries.specs.Fields.{lines};
ghost use Rattle.checker.specs.Conditions.{declared_names};
ghost use Rattle.entries.specs.Decoding.{rows_lines, line_of};
ghost use Rattle.checker.specs.Chains.{chains_check};
ghost use Rattle.checker.specs.Laws.{KindsDifferByNumbers, LinesJudged, Good, Found};
ghost use Rattle.checker.specs.Verdict.{Judged, LinesOfText, LinesNumbered};
ghost use Rattle.checker.specs.Scripts.{Sound, Laid};
ghost use Rattle.checker.specs.Checking.{other_table, open_check, entries_check, check_of, outcome, answer_of, Planned, Ready, Passed};

use crate::chains::check_chains;
use crate::jumps::{Jumps, find_jumps};
use crate::line_ends::Lines;
use crate::lines::{Past, check_lines};
use crate::refusals::{Reason, Refusal};
use crate::rows::{Places, Rows, find_places, find_rows};
use crate::scripts::Checked;
use entries::{Resolved, same_table};
use number::Kind;
use script::{Draft, Entry};

// What is prepared for a script: its names, the places of its entries among them, its rows, and where a run goes on.
#[derive(Clone, Copy)]
pub struct Plan {
    pub past: Past,
    pub places: Places,
    pub rows: Rows,
    pub jumps: Jumps,
}

// How many lines there are.
pub fn count_lines(table: &[Entry]) -> usize
    ensures { result ≡ length (lines table.now) }
{
    Lines(table).count()
}

// 8: the table does not hold what the reader wrote.
fn is_other_table(text: &[u8], fields: usize, table: &[Entry]) -> bool
    ensures { result ≡ other_table text.now fields table.now }
{
    if table.len() < fields {
        return true;
    }
    if fields > 4608 {
        return true;
    }
    let entries = &table[..fields];
    !same_table(text, entries) || count_lines(entries) > 256
}

// 13: a block is still open behind the last line.
fn check_open(past: Past) -> Result<(), Refusal>
    ensures { result ≡ open_check past }
{
    if past.depth == 0 {
        return Ok(());
    }
    Err(Refusal::new(Reason::Blocks, past.innermost().line, 0))
}

// What is prepared for these entries.
fn make_plan(text: &[u8], past: Past, table: &[Entry]) -> Option<Plan>
    requires { (past.declared ≤ 16) × ((length table.now ≤ 4608) × (length (lines table.now) ≤ 256)) }
    ensures { MatchOption result ⊥ (λ p. (p.past ≡ past) × Planned text.now table.now p × Ready table.now p) }
{
    let names = past.names(text);
    let rows = find_rows(&names, table)?;
    Some(Plan {
        past,
        places: find_places(&names, table),
        rows,
        jumps: find_jumps(rows.as_slice()),
    })
}

// 15: run by run.
fn check_plan(text: &[u8], plan: Plan, table: &[Entry]) -> Result<(), Refusal>
    requires { (Planned text.now table.now plan) × (length table.now ≤ 4608) }
    ensures { result ≡ chains_check 1 (map (line_of text.now (declared_names plan.past)) (lines table.now)) }
{
    check_chains(
        plan.rows.as_slice(),
        Resolved::new(table, &plan.places.of[..table.len()]),
    )
}

// These entries of a text, line by line; then blocks left open; then run by run.
fn check_entries<K: Kind>(text: &[u8], table: &[Entry]) -> Result<Plan, Refusal>
    requires { (length table.now ≤ 4608) × (length (lines table.now) ≤ 256) }
    ensures answer { outcome result ≡ entries_check K.Kind.means K.Kind.code text.now table.now }
    ensures plan { IfOk result (Planned text.now table.now) }
    ensures ready { IfOk result (Ready table.now) }
    ensures passed { IfOk result (λ p. Passed K.Kind.means K.Kind.code text.now table.now p.past) }
{
    let past = check_lines::<K>(text, table)?;
    check_open(past)?;
    let Some(plan) = make_plan(text, past, table) else {
        return Err(Refusal::new(Reason::OtherTable, 0, 0));
    };
    check_plan(text, plan, table)?;
    Ok(plan)
}

// Checks a draft for the kind K. Accepted: the checked script. Refused: the draft as it was, and why.
pub fn check<'t, 'a, K: Kind>(
    draft: Draft<'t>,
    table: &'a [Entry],
) -> Result<Checked<'t, 'a, K>, (Draft<'t>, Refusal)>
    ensures answer { answer_of result ≡ check_of K.Kind.means K.Kind.code draft.entry.text.now draft.entry.fields table.now }
    ensures judged { Judged K.Kind.means K.Kind.code draft.entry.text.now draft.entry.fields table.now (answer_of result) }
    ensures good { IfOk result (λ s. Good K.Kind.means K.Kind.code s.text.now s.table.now s.plan) }
    ensures found { IfOk result (λ s. Found K.Kind.means K.Kind.code s.text.now s.table.now s.plan) }
    ensures script { MatchResult result (λ s. (s.text.now ≡ draft.entry.text.now) × (s.table.now ≡ take draft.entry.fields table.now) × Planned s.text.now s.table.now s.plan) (λ e. (e.0.text.now ≡ draft.entry.text.now) × (e.0.lines ≡ draft.entry.lines) × (e.0.fields ≡ draft.entry.fields)) }
{
    let text = draft.text();
    let fields = draft.fields();
    if is_other_table(text, fields, table) {
        return Err((draft, Refusal::new(Reason::OtherTable, 0, 0)));
    }
    let entries = &table[..fields];
    match check_entries::<K>(text, entries) {
        Ok(plan) => Ok(Checked::new(text, entries, plan)),
        Err(refusal) => Err((draft, refusal)),
    }
}

// The check for one kind differs from that for another only by the numbers that they hold.
pub fn kinds_differ_by_numbers()
    ensures { KindsDifferByNumbers }
{}

// A line passes exactly where none of the conditions 9 to 14 holds.
pub fn lines_judged()
    ensures { LinesJudged }
{}

// A script that passed its check for K is sound for K, and what is prepared in it is laid out as a run goes through it.
pub fn scripts_laid<K: Kind>(script: &Checked<K>)
    ensures sound { Sound script.now K.Kind.means K.Kind.code }
    ensures laid { Laid script.now }
{}

// The lines of which a check speaks are those of the text, by their numbers.
pub fn lines_of_text()
    ensures lines { LinesOfText }
    ensures numbered { LinesNumbered }
{}
