// Where a run stands on a checked script, and where it goes on.
ghost use Rattle.std.specs.Prelude.{◌≡◌, ℕ, ◌+◌, ◌≤◌, length};
ghost use Rattle.motion.specs.NextLine.{onward};
ghost use Rattle.motion.specs.Machine.{place_at, whole_ticks};
ghost use Rattle.checker.specs.Scripts.{rows_in, lines_in};
ghost use Rattle.running.specs.Steps.{seen_place, standing_line};

use checker::Checked;
use number::{Kind, Pair};

// Where a run stands between two steps: at a line, inside of a stretch with ticks left, or at the end.
#[derive(Clone, Copy, PartialEq, Eq, Debug)]
pub enum Standing {
    At(u32),
    Inside(u32, u32),
    Ended,
}

impl Standing {
    // The line, and 0 at the end.
    pub fn line(self) -> u32
        ensures { result ≡ standing_line self }
    {
        match self {
            Standing::At(n) | Standing::Inside(n, _) => n,
            Standing::Ended => 0,
        }
    }
}

// The line of the next statement behind line n.
pub fn next_line<K: Kind>(script: &Checked<K>, n: u32) -> usize
    ensures { result ≡ onward 0 (lines_in script.now) n }
{
    let n = n as usize;
    if n >= script.rows().len() {
        n + 1
    } else {
        script.next(n) as usize
    }
}

// The same where the body that begins behind line n is passed over.
pub fn past_line<K: Kind>(script: &Checked<K>, n: u32) -> usize
    ensures { result ≡ onward 1 (lines_in script.now) n }
{
    let n = n as usize;
    if n >= script.rows().len() {
        n + 1
    } else {
        script.past(n) as usize
    }
}

// Where a run stands that goes on at line n.
pub fn standing_at<K: Kind>(script: &Checked<K>, n: usize) -> Standing
    ensures { seen_place result ≡ place_at (lines_in script.now) n }
{
    if n > script.rows().len() {
        Standing::Ended
    } else {
        Standing::At(n as u32)
    }
}

// The ticks that a number counts, if it is whole and not negative.
pub fn ticks_of<K: Kind>(q: Pair) -> Option<u32>
    ensures { result ≡ whole_ticks (K.Kind.means q) }
{
    match K::terms(q) {
        Ok((n, d)) if d == 1 && n >= 0 => Some(n as u32),
        _ => None,
    }
}
