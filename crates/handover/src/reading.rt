// The bench of a line that has the form, its values still as fractions.
ghost use Rattle.std.specs.Prelude.{◌≡◌, ◌≤◌, map, length, IfSome};
ghost use Rattle.std.specs.Option.{option_map};
ghost use Rattle.record.specs.Benches.{pairs_of, bench_of};
ghost use Rattle.handover.specs.Scans.{pair_of_number};
ghost use Rattle.handover.specs.Takes.{count_of, bench_from, read_of};

use crate::scanning::{Number, scan};
use crate::writing::line_text;
use kinds::fractions::Fractions;
use number::Pair;
use record::{Bench, MOST_TICKS, Values};

// The count that a field is, if it is a whole number from the least to the most.
fn count_of(field: Pair, least: u32, most: u32) -> Option<u32>
    ensures { result ≡ count_of least most «field» }
{
    if field.b != 1 {
        return None;
    }
    let count = u32::try_from(field.a).ok()?;
    (least..=most).contains(&count).then_some(count)
}

// The values of fields.
fn values_of(fields: &[Number]) -> Values
    requires { length fields.now ≤ 16 }
    ensures pairs { pairs_of result ≡ map pair_of_number fields.now }
    ensures few { result.count ≤ 16 }
{
    let mut pairs = [Pair { a: 0, b: 1 }; 16];
    for (i, number) in fields.iter().enumerate() {
        pairs[i] = number.pair();
    }
    Values {
        count: fields.len(),
        pairs,
    }
}

// The bench of fields: behind the word the four counts, and then the values.
fn bench_of(fields: &[Number]) -> Option<Bench>
    requires { length fields.now ≤ 21 }
    ensures bench { option_map bench_of result ≡ bench_from (map pair_of_number fields.now) }
    ensures few { IfSome result (λ b. b.values.count ≤ 16) }
{
    let [_, line, left, total, over, values @ ..] = fields else {
        return None;
    };
    Some(Bench {
        line: count_of(line.pair(), 1, 257)?,
        left: count_of(left.pair(), 0, MOST_TICKS)?,
        total: count_of(total.pair(), 0, MOST_TICKS)?,
        over: count_of(over.pair(), 0, MOST_TICKS)?,
        values: values_of(values),
    })
}

// The bench of a line: what its fields are, if that is written as the same line.
pub fn read_line(line: &[u8]) -> Option<Bench>
    ensures bench { option_map bench_of result ≡ read_of line.now }
    ensures few { IfSome result (λ b. b.values.count ≤ 16) }
{
    let bench = bench_of(scan(line).as_slice())?;
    let text = line_text::<Fractions>(&bench)?;
    (text.as_bytes() == line).then_some(bench)
}
