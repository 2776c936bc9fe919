// The fields of a line: its word, the names and the numbers among them.
ghost use Rattle.std.specs.Prelude.{◌≡◌, ℕ, ◌<◌, Bool, length, IfSome};
ghost use Rattle.script.specs.Places.{bytes_at};
ghost use Rattle.entries.specs.Fields.{first_word, is_name, find, unknown, undeclared, signed, not_held, unheld};

use number::Kind;
use script::{Entry, LineWord, Number, Place, Token, Word};

// The line word that a field is; end, where it is none.
pub fn word_of(token: Token) -> LineWord
    ensures { result ≡ first_word token }
{
    match token {
        Token::Word(Word::Line(line_word)) => line_word,
        _ => LineWord::End,
    }
}

pub fn is_name(token: Token) -> bool
    ensures { result ≡ is_name token }
{
    token == Token::Name
}

// The place of this name among those that stand at these places of the text.
pub fn find_name(text: &[u8], names: &[Place], name: &[u8]) -> Option<usize>
    ensures found { result ≡ find text.now names.now 0 name.now }
    ensures within { IfSome result (λ i. i < length names.now) }
{
    names.iter().position(|place| place.bytes(text) == name)
}

// Is a name that is not among these.
fn is_unknown(text: &[u8], names: &[Place], entry: Entry) -> bool
    ensures { result ≡ unknown text.now names.now entry }
{
    is_name(entry.token) && find_name(text, names, entry.place.bytes(text)).is_none()
}

// The field of the first name that is not among these.
pub fn first_undeclared(text: &[u8], names: &[Place], line: &[Entry]) -> Option<usize>
    ensures { result ≡ undeclared text.now names.now line.now }
{
    line.iter()
        .find(|entry| is_unknown(text, names, **entry))
        .map(|entry| entry.place.field)
}

// The numerator of a number as written, with its sign.
pub fn numerator(number: Number) -> i64
    ensures { result ≡ signed number.minus number.top }
{
    let top = number.top as i64;
    if number.minus { -top } else { top }
}

// Is a number that the kind does not hold.
fn is_unheld<K: Kind>(token: Token) -> bool
    ensures { result ≡ not_held K.Kind.means K.Kind.code token }
{
    match token {
        Token::Number(n) => K::take(numerator(n), n.bottom as i64).is_err(),
        _ => false,
    }
}

// The field of the first number that the kind does not hold.
pub fn first_unheld<K: Kind>(line: &[Entry]) -> Option<usize>
    ensures { result ≡ unheld K.Kind.means K.Kind.code line.now }
{
    line.iter()
        .find(|entry| is_unheld::<K>(entry.token))
        .map(|entry| entry.place.field)
}
