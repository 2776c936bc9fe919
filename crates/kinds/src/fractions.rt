// The kind that holds a fraction as its lowest terms, neither above the limit.
ghost use Rattle.std.specs.Prelude.{◌≡◌, ◌<◌, pos, ◌≤ℤ◌, unsigned_abs};
ghost use Rattle.number.specs.Gcd.{gcd as divisor};
ghost use Rattle.number.specs.Frac.{norm};
ghost use Rattle.number.specs.Kind.{held};
ghost use Rattle.kinds.specs.Fractions.{within, frac_of, pair_of};
ghost use Rattle.kinds.specs.Held.{fractions_held};

use super::within_limit;
use number::{Fault, Kind, Pair};

// Every fraction that a kind may hold.
pub struct Fractions;

// The greatest common divisor, by Euclid's loop.
fn gcd(mut a: u64, mut b: u64) -> u64
    ensures { result ≡ divisor a b }
{
    while b != 0 {
        let rest = a % b;
        a = b;
        b = rest;
    }
    a
}

// The same, but with no loop where b divides a: so a whole number costs none.
fn common(a: u64, b: u64) -> u64
    requires { 0 < b }
    ensures { result ≡ divisor a b }
{
    if a % b == 0 { b } else { gcd(a, b) }
}

// Is it in lowest terms, neither beyond the limit?
fn valid(p: Pair) -> bool
    ensures { result ≡ within p.a p.b }
{
    p.b >= 1
        && within_limit(p.a)
        && within_limit(p.b)
        && common(p.a.unsigned_abs(), p.b.unsigned_abs()) == 1
}

// The lowest terms of n / d, if neither is beyond the limit.
fn reduce(n: i64, d: i64) -> Result<Pair, Fault>
    requires { pos 1 ≤ℤ d }
    ensures { result ≡ held (pair_of (norm n (unsigned_abs d))) }
{
    let g = common(n.unsigned_abs(), d.unsigned_abs()) as i64;
    let a = n / g;
    let b = d / g;
    if within_limit(a) && within_limit(b) {
        Ok(Pair { a, b })
    } else {
        Err(Fault::NotHeld)
    }
}

impl Kind for Fractions {
    ghost means = { frac_of };

    ghost code = { pair_of };

    ghost sound = { fractions_held };

    fn take(n: i64, d: i64) -> Result<Pair, Fault> {
        if d < 1 {
            return Err(Fault::NotHeld);
        }
        reduce(n, d)
    }

    fn terms(p: Pair) -> Result<(i64, i64), Fault> {
        if !valid(p) {
            return Err(Fault::NotHeld);
        }
        Ok((p.a, p.b))
    }
}
