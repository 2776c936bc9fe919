// A new bench on a checked script.
ghost use Rattle.std.specs.Prelude.{◌≡◌, ℕ, ◌≤◌, map, length, take};
ghost use Rattle.motion.specs.Machine.{new};
ghost use Rattle.motion.specs.NextLine.{declared};
ghost use Rattle.motion.specs.Carriers.{Each};
ghost use Rattle.motion.specs.Pairs.{Meant};
ghost use Rattle.entries.specs.Decoding.{part, value_of, coefficient_of};
ghost use Rattle.checker.specs.Scripts.{table_in, rows_in, lines_in};
ghost use Rattle.record.specs.Benches.{pairs_of, bench_of};
ghost use Rattle.bench.specs.Built.{held_pair, first_values, value_in};

use checker::Checked;
use entries::{Row, between};
use number::{Kind, Pair};
use record::{Bench, Values};
use script::{Entry, Token};
use stretch::coefficient;

// The first field of some; a reserved word where there is none.
fn first_token(fields: &[Entry]) -> Token
    ensures { coefficient_of result ≡ value_of fields.now }
{
    fields.first().map_or(Token::Other, |entry| entry.token)
}

// The kind's pair of the value that a var line declares.
fn first_value<K: Kind>(table: &[Entry], row: Row) -> Pair
    ensures { result ≡ value_in K.Kind.code table.now row }
{
    let token = first_token(between(table, row.from, row.to));
    coefficient::<K>(token).unwrap_or(Pair { a: 0, b: 0 })
}

// The pairs of the values that these var lines declare.
fn first_pairs<K: Kind>(table: &[Entry], rows: &[Row]) -> [Pair; 16]
    requires { length rows.now ≤ 16 }
    ensures { take (length rows.now) result ≡ map (value_in K.Kind.code table.now) rows.now }
{
    let mut pairs = [Pair { a: 0, b: 0 }; 16];
    for (i, row) in rows.iter().enumerate() {
        pairs[i] = first_value::<K>(table, *row);
    }
    pairs
}

// The rows of the variables: at most 16.
fn var_rows<'s, K: Kind>(script: &'s Checked<K>) -> &'s [Row]
    ensures rows { result.now ≡ take script.now.plan.past.declared (rows_in script.now) }
    ensures few { length result.now ≤ 16 }
{
    between(script.rows(), 0, script.variables())
}

// A new bench: on the first line that is not var, with the declared values and no ticks.
pub fn build<K: Kind>(script: &Checked<K>) -> Bench
    ensures new { bench_of result ≡ new (lines_in script.now) (first_values K.Kind.code (lines_in script.now)) }
    ensures held { Each (Meant K.Kind.means) (declared (lines_in script.now)) (pairs_of result.values) }
    ensures few { result.values.count ≤ 16 }
{
    let rows = var_rows(script);
    Bench {
        line: rows.len() as u32 + 1,
        left: 0,
        total: 0,
        over: 0,
        values: Values {
            count: rows.len(),
            pairs: first_pairs::<K>(script.table(), rows),
        },
    }
}
