// Calls as data, and one call performed.
ghost use Rattle.std.specs.Prelude.{◌≡◌, ℕ, ◌≤◌, length};
ghost use Rattle.checker.specs.Scripts.{lines_in, variable_in};
ghost use Rattle.record.specs.Benches.{bench_of};
ghost use Rattle.series.specs.Series.{write_call, handed, Replies};

use bench::{Bench, Refusal, advance, next_joint, reading, take_up, write};
use checker::Checked;
use entries::between;
use number::Kind;

// A call on a bench: an advance by ticks with an allowance of steps, a reading of a name, the question for the next joint,
// and a write and a hand-over with a buffer of so many bytes.
#[derive(Clone, Copy)]
pub enum Call<'a> {
    Advance(u32, u32),
    Reading(&'a [u8]),
    NextJoint,
    Write(usize),
    HandOver(usize),
}

// What an accepted call answers: steps and ticks over, numerator and denominator, the ticks left, the length of the line,
// a bench handed over.
#[derive(Clone, Copy, PartialEq, Eq, Debug)]
pub enum Answer {
    Advanced(u32, u32),
    Value(i64, i64),
    Joint(Option<u32>),
    Written(usize),
    HandedOver,
}

// A call with its reply, once it is performed: an answer or a refusal.
#[derive(Clone, Copy)]
pub struct Step<'a> {
    pub call: Call<'a>,
    pub reply: Option<Result<Answer, Refusal>>,
}

// A write with this buffer, by its length.
fn write_with<K: Kind>(
    script: &Checked<K>,
    bench: &Bench,
    buffer: &mut [u8],
) -> Result<usize, Refusal>
    ensures { bench.now.values.count ≤ 16 → result ≡ write_call K.Kind.means K.Kind.code (lines_in script.now) (bench_of bench.now) (length buffer.old) }
{
    write::<K>(script, bench, buffer)
}

// A hand-over with this buffer: a write, and a take-up of that line.
fn hand_over_with<K: Kind>(
    script: &Checked<K>,
    bench: &mut Bench,
    buffer: &mut [u8],
) -> Result<(), Refusal>
    ensures answer { bench.old.values.count ≤ 16 → result ≡ handed (write_call K.Kind.means K.Kind.code (lines_in script.now) (bench_of bench.old) (length buffer.old)) }
    ensures same { bench_of bench.new ≡ bench_of bench.old }
    ensures few { bench.old.values.count ≤ 16 → bench.new.values.count ≤ 16 }
{
    let size = write::<K>(script, bench, buffer)?;
    let next = take_up::<K>(script, between(buffer, 0, size))?;
    *bench = next;
    Ok(())
}

// A write with a buffer of so many bytes; no line is longer than 411.
fn write_call<K: Kind>(script: &Checked<K>, bench: &Bench, room: usize) -> Result<usize, Refusal>
    ensures { bench.now.values.count ≤ 16 → result ≡ write_call K.Kind.means K.Kind.code (lines_in script.now) (bench_of bench.now) room }
{
    let mut buffer = [0; 411];
    write_with::<K>(script, bench, &mut buffer[..room.min(411)])
}

// A hand-over with a buffer of so many bytes.
fn hand_over<K: Kind>(script: &Checked<K>, bench: &mut Bench, room: usize) -> Result<(), Refusal>
    ensures answer { bench.old.values.count ≤ 16 → result ≡ handed (write_call K.Kind.means K.Kind.code (lines_in script.now) (bench_of bench.old) room) }
    ensures same { bench_of bench.new ≡ bench_of bench.old }
    ensures few { bench.old.values.count ≤ 16 → bench.new.values.count ≤ 16 }
{
    let mut buffer = [0; 411];
    hand_over_with::<K>(script, bench, &mut buffer[..room.min(411)])
}

// One call performed.
pub fn perform_call<K: Kind>(
    script: &Checked<K>,
    bench: &mut Bench,
    call: Call,
) -> Result<Answer, Refusal>
    ensures replies { bench.old.values.count ≤ 16 → Replies K.Kind.means K.Kind.code (lines_in script.now) (variable_in script.now) (bench_of bench.old) call.entry result (bench_of bench.new) }
    ensures few { bench.old.values.count ≤ 16 → bench.new.values.count ≤ 16 }
{
    match call {
        Call::Advance(ticks, allowance) => {
            let (steps, over) = advance::<K>(script, bench, ticks, allowance)?;
            Ok(Answer::Advanced(steps, over))
        }
        Call::Reading(name) => {
            let (n, d) = reading::<K>(script, bench, name)?;
            Ok(Answer::Value(n, d))
        }
        Call::NextJoint => Ok(Answer::Joint(next_joint(bench))),
        Call::Write(room) => {
            let size = write_call::<K>(script, bench, room)?;
            Ok(Answer::Written(size))
        }
        Call::HandOver(room) => {
            hand_over::<K>(script, bench, room)?;
            Ok(Answer::HandedOver)
        }
    }
}
