// What a field is, by its bytes.
ghost use Rattle.std.specs.Prelude.{◌≡◌};
ghost use Rattle.std.specs.List.{list_all};
ghost use Rattle.script.specs.Tokens.{letter, is_name, token_of, token_in, bytes_in};

use crate::numbers::{Number, number_of};
use crate::words::{Word, word_of};

// A field as a part of the text.
#[derive(Clone, Copy, PartialEq, Eq, Debug)]
pub enum Field<'a> {
    Word(Word, &'a [u8]),
    Name(&'a [u8]),
    Number(Number, &'a [u8]),
    // none of these: no field of an accepted text
    Other(&'a [u8]),
}

// What a field is, without its bytes.
#[derive(Clone, Copy, PartialEq, Eq, Debug)]
pub enum Token {
    Word(Word),
    Name,
    Number(Number),
    // none of these: no field of an accepted text
    Other,
}

fn all_letters(bytes: &[u8]) -> bool
    ensures { result ≡ list_all letter bytes.now }
{
    bytes.iter().all(u8::is_ascii_lowercase)
}

// 1 to 8 lower-case letters. (Reserved words are told before.)
#[tactic(auto, using(crate::proofs::Turns::letters_all))]
fn is_name(bytes: &[u8]) -> bool
    ensures { result ≡ is_name bytes.now }
{
    (1..=8).contains(&bytes.len()) && all_letters(bytes)
}

// The field that these bytes are.
pub fn classify<'a>(bytes: &'a [u8]) -> Field<'a>
    ensures token { token_in result ≡ token_of bytes.now }
    ensures bytes { bytes_in result ≡ bytes.now }
{
    if let Some(word) = word_of(bytes) {
        return Field::Word(word, bytes);
    }
    if is_name(bytes) {
        return Field::Name(bytes);
    }
    match number_of(bytes) {
        Some(number) => Field::Number(number, bytes),
        None => Field::Other(bytes),
    }
}

impl<'a> Field<'a> {
    // What the field is.
    pub fn token(self) -> Token
        ensures { result ≡ token_in self.entry }
    {
        match self {
            Field::Word(word, _) => Token::Word(word),
            Field::Name(_) => Token::Name,
            Field::Number(number, _) => Token::Number(number),
            Field::Other(_) => Token::Other,
        }
    }

    // The part of the text that it is.
    pub fn bytes(self) -> &'a [u8]
        ensures { result.now ≡ bytes_in self.entry }
    {
        match self {
            Field::Word(_, bytes)
            | Field::Name(bytes)
            | Field::Number(_, bytes)
            | Field::Other(bytes) => bytes,
        }
    }
}
