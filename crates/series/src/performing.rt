// Any list of calls on a bench that is built on a text.
ghost use Rattle.std.specs.Prelude.{◌≡◌, ℕ, ◌≤◌, List, map, length, IfOk, MatchResult};
ghost use Rattle.checker.specs.Scripts.{lines_in, variable_in};
ghost use Rattle.record.specs.Benches.{bench_of};
ghost use Rattle.series.specs.declared.calls.Step.{Step};
ghost use Rattle.checker.specs.Checking.{check_of};
ghost use Rattle.series.specs.Series.{Performed, call_in};
ghost use Rattle.series.specs.Promise.{Promise, TwoPromise, check_reply, admitted, outcome};

use crate::calls::{Step, perform_call};
use bench::{Bench, build};
use checker::{Checked, Refused, check};
use number::Kind;
use script::{Draft, Entry, read};

// The calls of the list on a new bench, one after the other; each reply is put beside its call.
fn perform_on<K: Kind>(script: &Checked<K>, steps: &mut [Step]) -> Bench
    ensures performed { Performed K.Kind.means K.Kind.code (lines_in script.now) (variable_in script.now) steps.new (bench_of result) }
    ensures calls { map call_in steps.new ≡ map call_in steps.old }
{
    let mut bench = build::<K>(script);
    // by index: a loop over a slice of structs that hold a reference gets no proof yet
    for i in 0..steps.len() {
        let call = steps[i].call;
        let reply = perform_call::<K>(script, &mut bench, call);
        steps[i] = Step {
            call,
            reply: Some(reply),
        };
    }
    bench
}

// The calls of the list on a bench that is built on a draft.
fn perform_draft<'t, 'a, K: Kind>(
    draft: Draft<'t>,
    table: &'a [Entry],
    steps: &mut [Step],
) -> Result<Bench, Refused>
    ensures answer { outcome result ≡ check_reply (check_of K.Kind.means K.Kind.code draft.entry.text.now draft.entry.fields table.now) }
    ensures promise { MatchResult result (λ b. Promise K.Kind.means K.Kind.code draft.entry.text.now steps.new (bench_of b)) (λ _. steps.new ≡ steps.old) }
    ensures calls { map call_in steps.new ≡ map call_in steps.old }
{
    match check::<K>(draft, table) {
        Ok(script) => Ok(perform_on::<K>(&script, steps)),
        Err((_draft, refusal)) => Err(refusal.into()),
    }
}

// Reads the text into the table, checks it for the kind K, builds a bench and performs the calls of the list on it,
// one after the other; each reply is put beside its call. Refused, the list stays as it was.
pub fn perform<K: Kind>(
    text: &[u8],
    table: &mut [Entry],
    steps: &mut [Step],
) -> Result<Bench, Refused>
    ensures answer { outcome result ≡ admitted K.Kind.means K.Kind.code text.now table.old }
    ensures promise { MatchResult result (λ b. Promise K.Kind.means K.Kind.code text.now steps.new (bench_of b)) (λ _. steps.new ≡ steps.old) }
    ensures calls { map call_in steps.new ≡ map call_in steps.old }
{
    let draft = read(text, table)?;
    perform_draft::<K>(draft, table, steps)
}

// Two such lists on one text, each on a bench of its own kind.
pub fn perform_two<K: Kind, L: Kind>(
    text: &[u8],
    table: &mut [Entry],
    first: &mut [Step],
    second: &mut [Step],
) -> Result<(Bench, Bench), Refused>
    ensures { IfOk result (λ p. TwoPromise K.Kind.means L.Kind.means K.Kind.code L.Kind.code text.now first.new second.new (bench_of p.0) (bench_of p.1)) }
{
    let one = perform::<K>(text, table, first)?;
    let other = perform::<L>(text, table, second)?;
    Ok((one, other))
}
