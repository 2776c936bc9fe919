// A bench taken up from a line.
ghost use Rattle.std.specs.Prelude.{◌≡◌, ◌≤◌, length, IfOk};
ghost use Rattle.number.specs.Kind.{taken};
ghost use Rattle.handover.specs.Takes.{held_from, values_of, plainly, taken_up};
ghost use Rattle.handover.specs.Laws.{Takes};

use crate::reading::read_line;
use number::{Fault, Kind, Pair};
use record::{Bench, Reason, Refusal, Values};

// A fraction as a number of the kind.
fn hold_one<K: Kind>(fraction: Pair) -> Result<Pair, Fault>
    ensures { result ≡ taken K.Kind.means K.Kind.code fraction.a fraction.b }
{
    K::take(fraction.a, fraction.b)
}

// Fractions as numbers of the kind; refused in the field of the first that it does not hold.
fn hold<K: Kind>(fractions: &[Pair]) -> Result<Values, Refusal>
    requires { length fractions.now ≤ 16 }
    ensures held { values_of result ≡ held_from K.Kind.means K.Kind.code 6 fractions.now }
    ensures few { IfOk result (λ v. v.count ≤ 16) }
{
    let mut pairs = [Pair { a: 0, b: 1 }; 16];
    for (i, fraction) in fractions.iter().enumerate() {
        let held = hold_one::<K>(*fraction);
        pairs[i] = held.map_err(|_| Refusal::new(Reason::ValueNotHeld, 0, i as u32 + 6))?;
    }
    Ok(Values {
        count: fractions.len(),
        pairs,
    })
}

// The bench of a line.
fn take<K: Kind>(line: &[u8]) -> Result<Bench, Refusal>
    ensures value { plainly result ≡ taken_up K.Kind.means K.Kind.code line.now }
    ensures few { IfOk result (λ b. b.values.count ≤ 16) }
{
    let bench = read_line(line).ok_or(Refusal::new(Reason::LineForm, 0, 0))?;
    let values = hold::<K>(bench.values.as_slice())?;
    Ok(Bench { values, ..bench })
}

// Takes a bench up from a line: exactly the lines that are written of benches within the bounds are accepted.
pub fn take_line<K: Kind>(line: &[u8]) -> Result<Bench, Refusal>
    ensures value { plainly result ≡ taken_up K.Kind.means K.Kind.code line.now }
    ensures few { IfOk result (λ b. b.values.count ≤ 16) }
    ensures takes { Takes K.Kind.means K.Kind.code line.now (plainly result) }
{
    take::<K>(line)
}
