// The kind that holds just the whole numbers from -1000 to 1000: n as the pair 7, 3 - n.
ghost use Rattle.std.specs.Prelude.{◌≡◌};
ghost use Rattle.kinds.specs.Small.{small_of, small_pair};
ghost use Rattle.kinds.specs.Smalls.{smalls_held};

use super::fractions::Fractions;
use number::{Fault, Kind, Pair};

// The first of every pair.
const MARK: i64 = 7;

// What the number is taken from.
const SHIFT: i64 = 3;

// The largest number.
const MOST: i64 = 1000;

// Whole numbers from -MOST to MOST.
pub struct SmallWholes;

impl Kind for SmallWholes {
    ghost means = { small_of };

    ghost code = { small_pair };

    ghost sound = { smalls_held };

    fn take(n: i64, d: i64) -> Result<Pair, Fault> {
        let p = Fractions::take(n, d)?;
        if p.b != 1 || p.a < -MOST || p.a > MOST {
            return Err(Fault::NotHeld);
        }
        Ok(Pair {
            a: MARK,
            b: SHIFT - p.a,
        })
    }

    fn terms(p: Pair) -> Result<(i64, i64), Fault> {
        if p.a != MARK || p.b < SHIFT - MOST || p.b > SHIFT + MOST {
            return Err(Fault::NotHeld);
        }
        Ok((SHIFT - p.b, 1))
    }
}
