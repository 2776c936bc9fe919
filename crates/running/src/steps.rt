// One step of a run, chosen by where it stands, the word of its line and the ticks to go.
ghost use Rattle.std.specs.Prelude.{◌≡◌, ℕ, ◌-◌, ◌≤◌, Err, slice_set};
ghost use Rattle.motion.specs.NextLine.{line_at};
ghost use Rattle.motion.specs.Machine.{at};
ghost use Rattle.entries.specs.Decoding.{or_none, row_line};
ghost use Rattle.checker.specs.Scripts.{table_in, places_in, lines_in};
ghost use Rattle.record.specs.declared.Reason.TheVariants.{NoStatement};
ghost use Rattle.refusal.specs.Refusals.{refused};
ghost use Rattle.record.specs.Benches.{pairs_of};
ghost use Rattle.running.specs.Steps.{seen_place, statement_line};

use crate::lines::{Standing, next_line, past_line, ticks_of};
use crate::runs::{Run, Statement};
use checker::Checked;
use entries::Row;
use number::{Kind, Pair};
use record::{Reason, Refusal, Values, refuse};
use script::LineWord;

// What a step comes to: on at a line with so many ticks to go, or a stop on a line with ticks left.
#[derive(Clone, Copy)]
pub enum Outcome {
    Go(usize, Values, u32),
    Stop(u32, u32, Values),
}

// What no checked script comes to: a step on a line that is no statement.
fn no_statement() -> Result<Outcome, Refusal>
    ensures { result ≡ Err (refused NoStatement 0 0) }
{
    Err(refuse(Reason::NoStatement, 0, 0))
}

// The index of a variable; past them all, where there is none.
fn index_of(place: Option<u8>) -> usize
    ensures { result ≡ or_none place }
{
    place.unwrap_or(16) as usize
}

// The values with that of the variable at this place set to q.
fn store(values: Values, place: Option<u8>, q: Pair) -> Values
    ensures stored { pairs_of result ≡ slice_set (pairs_of values) (or_none place) q }
    ensures count { result.count ≡ values.count }
{
    let mut pairs = values.pairs;
    let x = index_of(place);
    if x < 16 {
        pairs[x] = q;
    }
    Values { pairs, ..values }
}

// The row of line n; that of an end, where there is no such line.
pub fn row_at<K: Kind>(script: &Checked<K>, n: u32) -> Row
    ensures line { row_line (table_in script.now) (places_in script.now) result ≡ line_at (lines_in script.now) n }
    ensures short { result.to - result.from ≤ 18 }
{
    let rows = script.rows();
    if n >= 1 && n as usize <= rows.len() {
        rows[n as usize - 1]
    } else {
        Row {
            word: LineWord::End,
            name: None,
            from: 0,
            to: 0,
        }
    }
}

// The statement of line n; that of an end, where there is no such line.
fn statement_at<'s, K: Kind>(script: &'s Checked<'_, '_, K>, n: u32) -> Statement<'s>
    ensures number { result.line ≡ n }
    ensures line { statement_line result ≡ line_at (lines_in script.now) n }
{
    let row = row_at(script, n);
    Statement {
        line: n,
        word: row.word,
        name: row.name,
        items: script.resolved().between(row.from, row.to),
    }
}

impl<K: Kind> Run<'_, '_, '_, K> {
    ghost use Rattle.std.specs.Prelude.{◌<◌, drop, IfOk};
    ghost use Rattle.motion.specs.NextLine.{rates};
    ghost use Rattle.motion.specs.Pairs.{numbers_of};
    ghost use Rattle.motion.specs.Items.{number_of, truth_of};
    ghost use Rattle.motion.specs.Flow.{flow};
    ghost use Rattle.motion.specs.Machine.{cut, whole_run, stretch, assigned, started, chosen};
    ghost use Rattle.entries.specs.Decoding.{items_in};
    ghost use Rattle.running.specs.Steps.{seen_step, Keeps, turn_of};

    // A stretch on line n with `left` ticks left that is cut.
    fn cut_short(&self, n: u32, left: u32) -> Result<Outcome, Refusal>
        requires { self.now.ticks < left }
        ensures step { seen_step result ≡ cut n (left - self.now.ticks) (flow (numbers_of K.Kind.means K.Kind.code) (rates (drop n (lines_in self.now.script.now))) (pairs_of self.now.values) self.now.ticks) }
        ensures kept { IfOk result (Keeps self.now.values.count) }
    {
        match self.flow(n, self.ticks) {
            Some(after) => Ok(Outcome::Stop(n, left - self.ticks, after)),
            None => Err(refuse(Reason::NotHeldWhereCut, n, 0)),
        }
    }

    // A stretch on line n with `left` ticks left that is run to its end.
    fn run_through(&self, n: u32, left: u32) -> Result<Outcome, Refusal>
        requires { left ≤ self.now.ticks }
        ensures step { seen_step result ≡ whole_run (lines_in self.now.script.now) n (self.now.ticks - left) (flow (numbers_of K.Kind.means K.Kind.code) (rates (drop n (lines_in self.now.script.now))) (pairs_of self.now.values) left) }
        ensures kept { IfOk result (Keeps self.now.values.count) }
    {
        match self.flow(n, left) {
            Some(after) => Ok(Outcome::Go(next_line(self.script, n), after, self.ticks - left)),
            None => Err(refuse(Reason::NotHeld, n, 0)),
        }
    }

    // A stretch of d ticks on line n.
    fn pass(&self, n: u32, d: u32) -> Result<Outcome, Refusal>
        ensures step { seen_step result ≡ stretch (numbers_of K.Kind.means K.Kind.code) (lines_in self.now.script.now) (pairs_of self.now.values) self.now.ticks n d }
        ensures kept { IfOk result (Keeps self.now.values.count) }
    {
        if self.ticks < d {
            self.cut_short(n, d)
        } else {
            self.run_through(n, d)
        }
    }

    // A set line.
    fn assign(&self, statement: &Statement<'_>) -> Result<Outcome, Refusal>
        ensures step { seen_step result ≡ assigned (lines_in self.now.script.now) (pairs_of self.now.values) self.now.ticks statement.now.line (or_none statement.now.name) (number_of (numbers_of K.Kind.means K.Kind.code) (pairs_of self.now.values) 3 (items_in statement.now.items)) }
        ensures kept { IfOk result (Keeps self.now.values.count) }
    {
        let q = self.number(statement, 3)?;
        let after = store(self.values, statement.name, q);
        Ok(Outcome::Go(next_line(self.script, statement.line), after, self.ticks))
    }

    // A run line.
    fn start(&self, statement: &Statement<'_>) -> Result<Outcome, Refusal>
        ensures step { seen_step result ≡ started (numbers_of K.Kind.means K.Kind.code) (lines_in self.now.script.now) (pairs_of self.now.values) self.now.ticks statement.now.line (number_of (numbers_of K.Kind.means K.Kind.code) (pairs_of self.now.values) 2 (items_in statement.now.items)) }
        ensures kept { IfOk result (Keeps self.now.values.count) }
    {
        let q = self.number(statement, 2)?;
        match ticks_of::<K>(q) {
            Some(d) => self.pass(statement.line, d),
            None => Err(refuse(Reason::NoDuration, statement.line, 0)),
        }
    }

    // An if or while line.
    fn choose(&self, statement: &Statement<'_>) -> Result<Outcome, Refusal>
        ensures step { seen_step result ≡ chosen (lines_in self.now.script.now) (pairs_of self.now.values) self.now.ticks statement.now.line (truth_of (numbers_of K.Kind.means K.Kind.code) (pairs_of self.now.values) 2 (items_in statement.now.items)) }
        ensures kept { IfOk result (Keeps self.now.values.count) }
    {
        let next = if self.truth(statement, 2)? {
            next_line(self.script, statement.line)
        } else {
            past_line(self.script, statement.line)
        };
        Ok(Outcome::Go(next, self.values, self.ticks))
    }

    // The next step.
    pub fn step(&self) -> Result<Outcome, Refusal>
        ensures step { seen_step result ≡ turn_of (numbers_of K.Kind.means K.Kind.code) (lines_in self.now.script.now) (pairs_of self.now.values) self.now.ticks (seen_place self.now.standing) }
        ensures kept { IfOk result (Keeps self.now.values.count) }
    {
        let statement = statement_at(self.script, self.standing.line());
        match (self.standing, statement.word) {
            (Standing::Inside(n, left), _) if self.ticks < left => self.cut_short(n, left),
            (Standing::Inside(n, left), _) => self.run_through(n, left),
            (Standing::At(_), LineWord::Set) => self.assign(&statement),
            (Standing::At(_), LineWord::Run) => self.start(&statement),
            (Standing::At(_), LineWord::If | LineWord::While) => self.choose(&statement),
            (Standing::At(_) | Standing::Ended, _) => no_statement(),
        }
    }
}
