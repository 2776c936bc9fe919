// A bench written as a line.
ghost use Rattle.std.specs.Prelude.{◌≡◌, ◌+◌, ◌*◌, ◌≤◌, true, false, ◌∷◌, ◌++◌, length, is_ok, is_some, OnOk, Some, None, MatchOption};
ghost use Rattle.arrayvec.specs.ArrayString.{array_string_len};
ghost use Rattle.record.specs.Benches.{bench_of};
ghost use Rattle.handover.specs.Lines.{head_text, meant_text, writable, line_of};
ghost use Rattle.handover.specs.Laws.{Writes, ShortLines, RoundTrip};
ghost use Rattle.handover.specs.Examples.{Examples};

use crate::text::{Text, push_count, push_terms};
use number::{Fault, Kind, Pair};
use record::Bench;

// The word and the four counts.
fn head(bench: &Bench) -> Text
    ensures spelled { result.bytes ≡ head_text bench.now.line bench.now.left bench.now.total bench.now.over }
    ensures room { array_string_len result ≤ 49 }
{
    let mut text = Text::new();
    text.push_str("bench");
    push_count(&mut text, bench.line);
    push_count(&mut text, bench.left);
    push_count(&mut text, bench.total);
    push_count(&mut text, bench.over);
    text
}

// A comma and a value, if that is a number of the kind.
fn push_value<K: Kind>(text: &mut Text, value: Pair) -> Result<(), Fault>
    requires { array_string_len text.old ≤ 480 }
    ensures meant { is_ok result ≡ is_some (K.Kind.means value) }
    ensures added { OnOk result (text.new.bytes ≡ text.old.bytes ++ 44 ∷ meant_text (K.Kind.means value)) }
{
    let (top, bottom) = K::terms(value)?;
    text.push(',');
    push_terms(text, top, bottom);
    Ok(())
}

// The line of a bench; none where it has too many values, or one that is no number of the kind.
pub fn line_text<K: Kind>(bench: &Bench) -> Option<Text>
    ensures { MatchOption result (writable K.Kind.means bench.now ≡ false) (λ t. (writable K.Kind.means bench.now ≡ true) × (t.bytes ≡ line_of K.Kind.means (bench_of bench.now))) }
{
    let values = bench.values.pairs.get(..bench.values.count)?;
    let mut text = head(bench);
    for value in values {
        push_value::<K>(&mut text, *value).ok()?;
    }
    text.push('\n');
    Some(text)
}

// The line of a bench written to the front of a buffer, if it has one and that is long enough.
fn write<K: Kind>(bench: &Bench, buffer: &mut [u8]) -> Option<usize>
    ensures { Writes K.Kind.means bench.now buffer.old result buffer.new }
{
    let text = line_text::<K>(bench)?;
    let size = text.len();
    if size > buffer.len() {
        return None;
    }
    buffer[..size].copy_from_slice(text.as_bytes());
    Some(size)
}

// Writes the line of a bench to the front of a buffer, and says how many bytes it has.
// Where the buffer is too short, or the bench has too many values or one that is no number of the kind, nothing is written.
pub fn write_line<K: Kind>(bench: &Bench, buffer: &mut [u8]) -> Option<usize>
    ensures writes { Writes K.Kind.means bench.now buffer.old result buffer.new }
    ensures short { ShortLines K.Kind.means }
    ensures round { RoundTrip K.Kind.means K.Kind.code }
    ensures examples { Examples }
{
    write::<K>(bench, buffer)
}
