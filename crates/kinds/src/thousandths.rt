// The kind that counts thousandths.
ghost use Rattle.std.specs.Prelude.{◌≡◌, ◌≤◌, pos, ◌≤ℤ◌, unsigned_abs};
ghost use Rattle.number.specs.Kind.{held};
ghost use Rattle.kinds.specs.Thousandths.{counts, thousand_of, counted, count_of};
ghost use Rattle.kinds.specs.Counting.{thousandths_held};

use super::fractions::Fractions;
use super::within_limit;
use number::{Fault, Kind, Pair};

// Counts of thousandths.
pub struct Thousandths;

// Is it a count, and 1?
fn valid(p: Pair) -> bool
    ensures { result ≡ counts p.a p.b }
{
    p.b == 1 && within_limit(p.a)
}

// The thousandths of a / b.
fn count(a: i64, b: i64) -> Result<Pair, Fault>
    requires { (unsigned_abs a ≤ 2147483647) × (pos 1 ≤ℤ b) }
    ensures { result ≡ held (counted a (unsigned_abs b)) }
{
    let d = b.unsigned_abs();
    if 1000 % d != 0 {
        return Err(Fault::NotHeld);
    }
    let c = a * (1000 / d) as i64;
    if within_limit(c) {
        Ok(Pair { a: c, b: 1 })
    } else {
        Err(Fault::NotHeld)
    }
}

impl Kind for Thousandths {
    ghost means = { thousand_of };

    ghost code = { count_of };

    ghost sound = { thousandths_held };

    fn take(n: i64, d: i64) -> Result<Pair, Fault> {
        let p = Fractions::take(n, d)?;
        count(p.a, p.b)
    }

    fn terms(p: Pair) -> Result<(i64, i64), Fault> {
        if !valid(p) {
            return Err(Fault::NotHeld);
        }
        let r = Fractions::take(p.a, 1000)?;
        Ok((r.a, r.b))
    }
}
