// The five calls on a bench.
ghost use Rattle.std.specs.Prelude.{◌≡◌, ℕ, ◌≤◌, List, IfOk, if◌then◌else◌};
ghost use Rattle.motion.specs.Lines.{Line};
ghost use Rattle.motion.specs.Rules.{Standing, Curve};
ghost use Rattle.motion.specs.Pairs.{numbers_of};
ghost use Rattle.checker.specs.Scripts.{lines_in, variable_in};
ghost use Rattle.record.specs.Benches.{pairs_of, bench_of};
ghost use Rattle.handover.specs.Lines.{line_of, copied};
ghost use Rattle.handover.specs.Takes.{taken_up, plainly};
ghost use Rattle.handover.specs.Laws.{Takes};
ghost use Rattle.bench.specs.Calls.{fitting, told, advanced, kept_if_refused, unfit, value_in_terms, read_variable, joint_of, written, settled};
ghost use Rattle.bench.specs.Laws.{OnCurve, AdvancesOnCurve, AdvanceTold, Lasts, ReadsCurve, WrittenBack, TakenExactly, JointOnCurve};

use crate::fitting::fits;
use checker::Checked;
use handover::{take_line, write_line};
use number::{Kind, Pair};
use record::{Bench, Reason, Refusal, refuse};
use running::run_on;

// The bench moved on by `ticks`, in at most `allowance` steps.
fn advance_by<K: Kind>(
    script: &Checked<K>,
    bench: &mut Bench,
    ticks: u32,
    allowance: u32,
) -> Result<(u32, u32), Refusal>
    ensures answer { told result bench.new ≡ advanced (numbers_of K.Kind.means K.Kind.code) (lines_in script.now) bench.old ticks allowance }
    ensures kept { kept_if_refused result bench.old bench.new }
    ensures count { bench.new.values.count ≡ bench.old.values.count }
{
    if !fits::<K>(script, bench) {
        return Err(refuse(Reason::NotFitting, 0, 0));
    }
    let (steps, after) = run_on::<K>(script, bench, ticks, allowance)?;
    *bench = after;
    Ok((steps, after.over))
}

// Moves the bench on by `ticks`, in at most `allowance` steps. Accepted, it answers the steps made and the ticks over;
// refused, the bench stays as it was.
pub fn advance<K: Kind>(
    script: &Checked<K>,
    bench: &mut Bench,
    ticks: u32,
    allowance: u32,
) -> Result<(u32, u32), Refusal>
    ensures answer { told result bench.new ≡ advanced (numbers_of K.Kind.means K.Kind.code) (lines_in script.now) bench.old ticks allowance }
    ensures kept { kept_if_refused result bench.old bench.new }
    ensures count { bench.new.values.count ≡ bench.old.values.count }
    ensures curve { AdvancesOnCurve K.Kind.means K.Kind.code (lines_in script.now) bench.old ticks allowance (told result bench.new) }
    ensures reasons { AdvanceTold K.Kind.means K.Kind.code (lines_in script.now) bench.old ticks allowance (told result bench.new) }
    ensures lasting { Lasts K.Kind.means K.Kind.code (lines_in script.now) bench.old ticks allowance (told result bench.new) }
{
    advance_by::<K>(script, bench, ticks, allowance)
}

// A value in lowest terms.
fn terms_of<K: Kind>(value: Pair) -> Result<(i64, i64), Refusal>
    ensures { result ≡ value_in_terms (K.Kind.means value) }
{
    K::terms(value).map_err(|_| refuse(Reason::NotFitting, 0, 0))
}

// The value of a variable in lowest terms, if the name is declared.
fn read_name<K: Kind>(
    script: &Checked<K>,
    values: &[Pair],
    name: &[u8],
) -> Result<(i64, i64), Refusal>
    ensures { result ≡ read_variable K.Kind.means values.now (variable_in script.now name.now) }
{
    match script.variable(name).and_then(|x| values.get(x).copied()) {
        Some(value) => terms_of::<K>(value),
        None => Err(refuse(Reason::NameNotDeclared, 0, 0)),
    }
}

// The value of a variable, by its name.
fn read_bench<K: Kind>(
    script: &Checked<K>,
    bench: &Bench,
    name: &[u8],
) -> Result<(i64, i64), Refusal>
    ensures { result ≡ (if fitting (numbers_of K.Kind.means K.Kind.code) (lines_in script.now) bench.now then read_variable K.Kind.means (pairs_of bench.now.values) (variable_in script.now name.now) else unfit) }
{
    if !fits::<K>(script, bench) {
        return Err(refuse(Reason::NotFitting, 0, 0));
    }
    let values = bench.values.as_slice();
    read_name::<K>(script, values, name)
}

// The named value in lowest terms: its numerator and its denominator.
pub fn reading<K: Kind>(
    script: &Checked<K>,
    bench: &Bench,
    name: &[u8],
) -> Result<(i64, i64), Refusal>
    ensures answer { result ≡ (if fitting (numbers_of K.Kind.means K.Kind.code) (lines_in script.now) bench.now then read_variable K.Kind.means (pairs_of bench.now.values) (variable_in script.now name.now) else unfit) }
    ensures curve { (T : ℕ) → OnCurve K.Kind.means K.Kind.code (lines_in script.now) T (bench_of bench.now) → ReadsCurve K.Kind.means K.Kind.code (lines_in script.now) T (variable_in script.now name.now) result }
{
    read_bench::<K>(script, bench, name)
}

// The ticks left in the stretch, or none where the bench is in none.
pub fn next_joint(bench: &Bench) -> Option<u32>
    ensures answer { result ≡ joint_of bench.now.left }
    ensures curve { (script : List Line) (T : ℕ) (s : Standing) → Curve script T s → s.left ≡ bench.now.left → JointOnCurve result s.left }
{
    (bench.left > 0).then_some(bench.left)
}

// The line of the bench, written to the front of the buffer.
fn write_bench<K: Kind>(
    script: &Checked<K>,
    bench: &Bench,
    buffer: &mut [u8],
) -> Result<usize, Refusal>
    ensures answer { result ≡ (if fitting (numbers_of K.Kind.means K.Kind.code) (lines_in script.now) bench.now then written (line_of K.Kind.means (bench_of bench.now)) buffer.old else unfit) }
    ensures bytes { buffer.new ≡ (if fitting (numbers_of K.Kind.means K.Kind.code) (lines_in script.now) bench.now then copied (line_of K.Kind.means (bench_of bench.now)) buffer.old else buffer.old) }
{
    if !fits::<K>(script, bench) {
        return Err(refuse(Reason::NotFitting, 0, 0));
    }
    match write_line::<K>(bench, buffer) {
        Some(size) => Ok(size),
        None => Err(refuse(Reason::BufferTooShort, 0, 0)),
    }
}

// Writes the bench as a line to the front of the buffer, and answers its length; later bytes stay.
pub fn write<K: Kind>(
    script: &Checked<K>,
    bench: &Bench,
    buffer: &mut [u8],
) -> Result<usize, Refusal>
    ensures answer { result ≡ (if fitting (numbers_of K.Kind.means K.Kind.code) (lines_in script.now) bench.now then written (line_of K.Kind.means (bench_of bench.now)) buffer.old else unfit) }
    ensures bytes { buffer.new ≡ (if fitting (numbers_of K.Kind.means K.Kind.code) (lines_in script.now) bench.now then copied (line_of K.Kind.means (bench_of bench.now)) buffer.old else buffer.old) }
    ensures back { WrittenBack K.Kind.means K.Kind.code (lines_in script.now) bench.now result buffer.new }
{
    write_bench::<K>(script, bench, buffer)
}

// The bench of a line, if it fits the script.
fn take_bench<K: Kind>(script: &Checked<K>, line: &[u8]) -> Result<Bench, Refusal>
    ensures few { IfOk result (λ b. b.values.count ≤ 16) }
    ensures answer { plainly result ≡ settled (numbers_of K.Kind.means K.Kind.code) (lines_in script.now) (taken_up K.Kind.means K.Kind.code line.now) }
{
    let bench = take_line::<K>(line)?;
    if fits::<K>(script, &bench) {
        Ok(bench)
    } else {
        Err(refuse(Reason::NotFitting, 0, 0))
    }
}

// Takes a bench up from a line.
pub fn take_up<K: Kind>(script: &Checked<K>, line: &[u8]) -> Result<Bench, Refusal>
    ensures answer { plainly result ≡ settled (numbers_of K.Kind.means K.Kind.code) (lines_in script.now) (taken_up K.Kind.means K.Kind.code line.now) }
    ensures few { IfOk result (λ b. b.values.count ≤ 16) }
    ensures exactly { TakenExactly K.Kind.means K.Kind.code (lines_in script.now) line.now (plainly result) }
    ensures takes { Takes K.Kind.means K.Kind.code line.now (taken_up K.Kind.means K.Kind.code line.now) }
{
    take_bench::<K>(script, line)
}
