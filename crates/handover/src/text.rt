// The parts of a line, each written behind a text.
ghost use Rattle.std.specs.Prelude.{◌≡◌, ◌+◌, ◌≤◌, ◌++◌, length};
ghost use Rattle.arrayvec.specs.ArrayString.{array_string_len};
ghost use Rattle.handover.specs.Texts.{count_text, terms_text};

use arrayvec::ArrayString;
use itoa::Buffer;

// A text with room for the longest line.
pub type Text = ArrayString<512>;

// A comma and a count.
pub fn push_count(text: &mut Text, n: u32)
    requires { array_string_len text.old ≤ 500 }
    ensures added { text.new.bytes ≡ text.old.bytes ++ count_text n }
    ensures room { array_string_len text.new ≤ array_string_len text.old + 11 }
{
    text.push(',');
    text.push_str(Buffer::new().format(n));
}

// The numerator, and where the denominator is not 1 a slash and the denominator.
pub fn push_terms(text: &mut Text, top: i64, bottom: i64)
    requires { array_string_len text.old + length (terms_text top bottom) ≤ 512 }
    ensures { text.new.bytes ≡ text.old.bytes ++ terms_text top bottom }
{
    text.push_str(Buffer::new().format(top));
    if bottom != 1 {
        text.push('/');
        text.push_str(Buffer::new().format(bottom));
    }
}
