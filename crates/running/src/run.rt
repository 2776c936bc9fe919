// A run of several steps.
ghost use Rattle.std.specs.Prelude.{◌≡◌, ℕ, suc, ◌≤◌, Bool, length, IfOk};
ghost use Rattle.motion.specs.Pairs.{numbers_of};
ghost use Rattle.motion.specs.Machine.{loop as loop_meaning, place_of, advance};
ghost use Rattle.checker.specs.Scripts.{lines_in};
ghost use Rattle.record.specs.Benches.{pairs_of, bench_of};
ghost use Rattle.running.specs.Steps.{seen_place, is_ended, seen_answer};

use crate::lines::{Standing, next_line, standing_at};
use crate::runs::Run;
use crate::steps::Outcome;
use checker::Checked;
use number::Kind;
use record::{Bench, MOST_TICKS, Reason, Refusal, refuse};

fn is_ended(standing: Standing) -> bool
    ensures { result ≡ is_ended (seen_place standing) }
{
    matches!(standing, Standing::Ended)
}

// One past the last line.
pub fn end_line<K: Kind>(script: &Checked<K>) -> u32
    ensures { result ≡ suc (length (lines_in script.now)) }
{
    script.rows().len() as u32 + 1
}

// What a run comes to that may make no step more: its end, or the refusal at the statement that is next.
fn finish<K: Kind>(
    run: &Run<'_, '_, '_, K>,
    total: u32,
    steps: u32,
) -> Result<(u32, Bench), Refusal>
    ensures answer { seen_answer result ≡ loop_meaning (numbers_of K.Kind.means K.Kind.code) (lines_in run.now.script.now) total 0 steps (pairs_of run.now.values) run.now.ticks (seen_place run.now.standing) }
    ensures count { IfOk result (λ p. p.1.values.count ≡ run.now.values.count) }
{
    match run.standing {
        Standing::Ended => Ok((
            steps,
            Bench {
                line: end_line(run.script),
                left: 0,
                total,
                over: run.ticks,
                values: run.values,
            },
        )),
        Standing::At(n) | Standing::Inside(n, _) => Err(refuse(Reason::StepsUsedUp, n, 0)),
    }
}

// A run of at most `allowance` steps.
fn run_from<K: Kind>(
    start: &Run<'_, '_, '_, K>,
    total: u32,
    allowance: u32,
) -> Result<(u32, Bench), Refusal>
    ensures answer { seen_answer result ≡ loop_meaning (numbers_of K.Kind.means K.Kind.code) (lines_in start.now.script.now) total allowance 0 (pairs_of start.now.values) start.now.ticks (seen_place start.now.standing) }
    ensures count { IfOk result (λ p. p.1.values.count ≡ start.now.values.count) }
{
    let script = start.script;
    let mut values = start.values;
    let mut ticks = start.ticks;
    let mut standing = start.standing;
    for i in 0..allowance {
        let run = Run {
            script,
            values,
            ticks,
            standing,
        };
        if is_ended(standing) {
            return finish(&run, total, i);
        }
        match run.step()? {
            Outcome::Stop(line, left, values) => {
                return Ok((
                    i + 1,
                    Bench {
                        line,
                        left,
                        total,
                        over: 0,
                        values,
                    },
                ));
            }
            Outcome::Go(line, after, rest) => {
                values = after;
                ticks = rest;
                standing = standing_at(script, line);
            }
        }
    }
    let run = Run {
        script,
        values,
        ticks,
        standing,
    };
    finish(&run, total, allowance)
}

// Where a bench stands.
fn standing_of<K: Kind>(script: &Checked<K>, bench: &Bench) -> Standing
    ensures { seen_place result ≡ place_of (lines_in script.now) (bench_of bench.now) }
{
    if bench.left > 0 {
        Standing::Inside(bench.line, bench.left)
    } else if bench.line == 0 {
        Standing::At(0)
    } else {
        standing_at(script, next_line(script, bench.line - 1))
    }
}

// The bench moved on by `ticks` in at most `allowance` steps, and the steps made.
pub fn run_on<K: Kind>(
    script: &Checked<K>,
    bench: &Bench,
    ticks: u32,
    allowance: u32,
) -> Result<(u32, Bench), Refusal>
    ensures answer { bench.now.values.count ≤ 16 → bench.now.over ≤ 2147483647 → seen_answer result ≡ advance (numbers_of K.Kind.means K.Kind.code) (lines_in script.now) (bench_of bench.now) ticks allowance }
    ensures count { IfOk result (λ p. p.1.values.count ≡ bench.now.values.count) }
{
    if bench.values.count > 16 || bench.over > MOST_TICKS {
        return Err(refuse(Reason::NotFitting, 0, 0));
    }
    let total = bench.total as u64 + ticks as u64;
    if total > MOST_TICKS as u64 {
        return Err(refuse(Reason::TooManyTicks, 0, 0));
    }
    let run = Run {
        script,
        values: bench.values,
        ticks: bench.over + ticks,
        standing: standing_of(script, bench),
    };
    run_from(&run, total as u32, allowance)
}
