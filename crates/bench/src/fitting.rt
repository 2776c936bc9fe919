// Whether a bench fits a script.
ghost use Rattle.std.specs.Prelude.{◌≡◌, ℕ, ◌≤◌, true, ◌==◌};
ghost use Rattle.motion.specs.NextLine.{line_at, first_line};
ghost use Rattle.motion.specs.Pairs.{numbers_of};
ghost use Rattle.motion.specs.Fitting.{answered, all_numbers, is_run, as_new, in_stretch, at_end, counts_small};
ghost use Rattle.checker.specs.Scripts.{lines_in};
ghost use Rattle.record.specs.Benches.{bench_of};
ghost use Rattle.bench.specs.Calls.{run_by, valued, placed, fitting};

use checker::Checked;
use number::{Kind, Pair};
use record::{Bench, MOST_TICKS};
use running::{end_line, row_at};
use script::LineWord;

// Whether a pair is a number of the kind.
fn is_number<K: Kind>(p: Pair) -> bool
    ensures { result ≡ answered (K.Kind.means p) }
{
    K::terms(p).is_ok()
}

// Whether each is a number of the kind.
fn are_numbers<K: Kind>(pairs: &[Pair]) -> bool
    ensures { result ≡ all_numbers (numbers_of K.Kind.means K.Kind.code) pairs.now }
{
    for pair in pairs {
        if !is_number::<K>(*pair) {
            return false;
        }
    }
    true
}

fn are_small(bench: &Bench) -> bool
    ensures { result ≡ counts_small (bench_of bench.now) }
{
    bench.left <= MOST_TICKS && bench.total <= MOST_TICKS && bench.over <= MOST_TICKS
}

// Whether this is the first line that is not var, or one past the last.
fn is_first<K: Kind>(script: &Checked<K>, line: u32) -> bool
    ensures { result ≡ (line == first_line 1 (lines_in script.now)) }
{
    if line == 0 {
        return false;
    }
    line as usize - 1 == script.variables()
}

// As when new, whatever the values.
fn is_new<K: Kind>(script: &Checked<K>, bench: &Bench) -> bool
    ensures { result ≡ as_new (lines_in script.now) (bench_of bench.now) }
{
    is_first(script, bench.line) && bench.left == 0 && bench.total == 0 && bench.over == 0
}

// In a stretch: on a run line with ticks left and none over.
fn is_in_stretch<K: Kind>(script: &Checked<K>, bench: &Bench) -> bool
    ensures { result ≡ in_stretch (lines_in script.now) (bench_of bench.now) }
{
    let row = row_at(script, bench.line);
    row.word == LineWord::Run && bench.left >= 1 && bench.over == 0
}

// At the end: one past the last line, with none left and at most the total over.
fn is_at_end<K: Kind>(script: &Checked<K>, bench: &Bench) -> bool
    ensures { result ≡ at_end (lines_in script.now) (bench_of bench.now) }
{
    bench.line == end_line(script) && bench.left == 0 && bench.over <= bench.total
}

// As many values as variables, at most 16, all of the kind.
fn has_values<K: Kind>(script: &Checked<K>, bench: &Bench) -> bool
    ensures answer { result ≡ valued (numbers_of K.Kind.means K.Kind.code) (lines_in script.now) bench.now }
    ensures few { result ≡ true → bench.now.values.count ≤ 16 }
{
    let values = bench.values.as_slice();
    if bench.values.count > 16 {
        return false;
    }
    if values.len() != script.variables() {
        return false;
    }
    are_numbers::<K>(values)
}

// In one of the three places.
fn is_placed<K: Kind>(script: &Checked<K>, bench: &Bench) -> bool
    ensures { result ≡ placed (lines_in script.now) (bench_of bench.now) }
{
    if is_new(script, bench) {
        return true;
    }
    if is_in_stretch(script, bench) {
        return true;
    }
    is_at_end(script, bench)
}

// Whether a bench fits a script: as many values as variables, all of the kind, small counts, and one of the three places.
pub fn fits<K: Kind>(script: &Checked<K>, bench: &Bench) -> bool
    ensures answer { result ≡ fitting (numbers_of K.Kind.means K.Kind.code) (lines_in script.now) bench.now }
    ensures few { result ≡ true → (bench.now.values.count ≤ 16) × (bench.now.over ≤ 2147483647) }
{
    if !has_values(script, bench) {
        return false;
    }
    if !are_small(bench) {
        return false;
    }
    is_placed(script, bench)
}
