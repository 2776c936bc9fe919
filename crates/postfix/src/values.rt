// The numbers of a script and the values of its variables, in a kind's numbers.
ghost use Rattle.std.specs.Prelude.{◌≡◌};
ghost use Rattle.motion.specs.Items.{nth};
ghost use Rattle.entries.specs.Decoding.{frac_of_number, or_none};

use entries::{NO_VARIABLE, numerator};
use number::{Kind, Pair};
use script::Number;

// The kind's pair of a number as written; of 0, where it has no denominator.
pub fn literal<K: Kind>(n: Number) -> Option<Pair>
    ensures { result ≡ K.Kind.code (frac_of_number n) }
{
    if n.bottom == 0 {
        K::take(0, 1).ok()
    } else {
        K::take(numerator(n), n.bottom as i64).ok()
    }
}

// The value of the variable at this place, if there is one.
pub fn value_at(values: &[Pair], place: Option<u8>) -> Option<Pair>
    ensures { result ≡ nth values.now (or_none place) }
{
    let place = place.unwrap_or(NO_VARIABLE) as usize;
    values.get(place).copied()
}
