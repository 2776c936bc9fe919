// The values after some ticks of a stretch, in a kind's numbers.
#![tactic(auto)]

ghost use Rattle.std.specs.Prelude.{◌≡◌, ◌≤◌};
ghost use Rattle.std.specs.Option.{option_map};
ghost use Rattle.motion.specs.Pairs.{numbers_of};
ghost use Rattle.motion.specs.NextLine.{rates as rates_of};
ghost use Rattle.motion.specs.Flow.{climb as climb_meaning, flow as flow_meaning};
ghost use Rattle.entries.specs.Decoding.{lines_over};
ghost use Rattle.record.specs.Benches.{pairs_of};
ghost use Rattle.stretch.specs.Flows.{Counted};

mod rates;
mod sums;
#[cfg(test)]
mod tests;

use crate::rates::Rates;
use crate::sums::Derivatives;
use entries::{Resolved, Row};
use number::{Kind, Pair, step};
use record::Values;
pub use sums::coefficient;

// Each of the values d plus that of r scaled by n over k.
fn climb<K: Kind>(d: &Values, r: &Values, n: u32, k: u32) -> Option<Values>
    requires few { d.now.count ≤ 16 }
    requires same { r.now.count ≡ d.now.count }
    ensures pairs { option_map pairs_of result ≡ climb_meaning (numbers_of K.Kind.means K.Kind.code) n k (pairs_of d.now) (pairs_of r.now) }
    ensures count { Counted d.now.count result }
{
    let values = d.as_slice();
    let rates = r.as_slice();
    let mut pairs = [Pair { a: 0, b: 0 }; 16];
    for (i, (&value, &rate)) in values.iter().zip(rates).enumerate() {
        pairs[i] = step::<K>(value, rate, n, k).ok()?;
    }
    Some(Values {
        count: d.count,
        pairs,
    })
}

// The values after n ticks at the rates of the rate lines that stand first among `rows`, if each number on the way is held:
// D1 to D4, and from D4 down. For 0 ticks nothing is worked out.
pub fn flow<K: Kind>(rows: &[Row], entries: Resolved, values: &Values, n: u32) -> Option<Values>
    ensures pairs { values.now.count ≤ 16 → option_map pairs_of result ≡ flow_meaning (numbers_of K.Kind.means K.Kind.code) (rates_of (lines_over entries.entry rows.now)) (pairs_of values.now) n }
    ensures count { Counted values.now.count result }
{
    if values.count > 16 {
        return None;
    }
    if n == 0 {
        return Some(*values);
    }
    let rates = Rates { rows, entries };
    let d0 = Derivatives {
        values: *values,
        first: true,
    };
    let d1 = d0.next::<K>(&rates)?;
    let d2 = d1.next::<K>(&rates)?;
    let d3 = d2.next::<K>(&rates)?;
    let d4 = d3.next::<K>(&rates)?;
    let r3 = climb::<K>(&d3.values, &d4.values, n, 4)?;
    let r2 = climb::<K>(&d2.values, &r3, n, 3)?;
    let r1 = climb::<K>(&d1.values, &r2, n, 2)?;
    climb::<K>(values, &r1, n, 1)
}
