// Three kinds of number: fractions, thousandths and small whole numbers.
#![tactic(auto)]

ghost use Rattle.std.specs.Prelude.{◌≡◌, nat_le, unsigned_abs};

pub mod fractions;
pub mod small;
pub mod thousandths;

// No term of a fraction and no count of thousandths is beyond it.
const LIMIT: u64 = 2147483647;

// Is it within the limit?
fn within_limit(z: i64) -> bool
    ensures { result ≡ nat_le (unsigned_abs z) 2147483647 }
{
    z.unsigned_abs() <= LIMIT
}
