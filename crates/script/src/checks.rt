// The conditions under which a text is refused, in the order in which they are tried.
ghost use Rattle.std.specs.Prelude.{◌≡◌, ℕ, ◌+◌, ◌<◌, ◌≤◌, length, IfOk};
ghost use Rattle.script.specs.Places.{places};
ghost use Rattle.script.specs.Checks.{feeds, unended, allowed, stray, text_check, count_suits, form_at, has_form};
ghost use Rattle.script.specs.Scan.{begin, with_field, finish, next_line, line_check};
ghost use Rattle.script.specs.Surveys.{Surveyed, noted};

use crate::places::{Cursor, Place};
use crate::refusals::{Reason, Refusal};
use crate::tokens::Token;
use crate::words::{LineWord, Word};

// The most bytes that a text can have.
pub const MOST_BYTES: usize = 16384;

// The most lines that a text can have.
pub const MOST_LINES: usize = 256;

// The most fields that a text can have: 18 on each line.
pub const MOST_FIELDS: usize = MOST_LINES * 18;

// A line and a field on it, both from 1.
#[derive(Clone, Copy, PartialEq, Eq, Debug)]
pub struct Spot {
    pub line: usize,
    pub field: usize,
}

// What one pass over a text finds: its line feeds, and where the first byte stands that is not allowed.
#[derive(Clone, Copy, PartialEq, Eq, Debug)]
pub struct Survey {
    pub feeds: usize,
    pub stray: Option<Spot>,
}

fn is_allowed(b: u8) -> bool
    ensures { result ≡ allowed b }
{
    matches!(b, b'a'..=b'z' | b'0'..=b'9' | b',' | b'-' | b'/' | b'\n')
}

// The first stray byte so far, this byte included, which stands after `line` lines and `field` commas of its line.
fn note(found: Option<Spot>, b: u8, line: usize, field: usize) -> Option<Spot>
    requires { (line < 18446744073709551615) × (field < 18446744073709551615) }
    ensures { result ≡ noted found b line field }
{
    // a byte behind a stray one is not looked at
    if found.is_some() || is_allowed(b) {
        return found;
    }
    Some(Spot {
        line: line + 1,
        field: field + 1,
    })
}

fn look_over(text: &[u8]) -> Survey
    ensures { Surveyed text.now result }
{
    let mut feeds: usize = 0;
    let mut commas: usize = 0;
    let mut stray: Option<Spot> = None;
    for b in text {
        stray = note(stray, *b, feeds, commas);
        match b {
            b'\n' => {
                feeds += 1;
                commas = 0;
            }
            b',' => commas += 1,
            _ => {}
        }
    }
    Survey { feeds, stray }
}

fn is_unended(text: &[u8]) -> bool
    ensures { result ≡ unended text.now }
{
    text.last().is_some_and(|b| *b != b'\n')
}

// The number of lines, or what is wrong with the text as a whole.
pub fn check_text(text: &[u8]) -> Result<usize, Refusal>
    ensures { result ≡ text_check text.now }
{
    if text.len() > MOST_BYTES {
        return Err(Refusal::new(Reason::TextTooLong, 0, 0));
    }
    let found = look_over(text);
    if is_unended(text) {
        return Err(Refusal::new(Reason::NoLineFeedAtEnd, found.feeds + 1, 0));
    }
    if let Some(spot) = found.stray {
        return Err(Refusal::new(Reason::StrayByte, spot.line, spot.field));
    }
    if found.feeds > MOST_LINES {
        return Err(Refusal::new(Reason::TooManyLines, MOST_LINES + 1, 0));
    }
    Ok(found.feeds)
}

// The form that a place of a line asks for.
#[derive(Clone, Copy, PartialEq, Eq, Debug)]
pub enum Form {
    Name,
    Number,
    Item,
    NameOrOne,
}

// A line of this word can have so many fields, the word included.
fn suits(word: LineWord, fields: usize) -> bool
    ensures { result ≡ count_suits word fields }
{
    match word {
        LineWord::Var => fields == 3,
        LineWord::Set => (3..=18).contains(&fields),
        LineWord::Run | LineWord::If | LineWord::While => (2..=17).contains(&fields),
        LineWord::Rate => (4..=14).contains(&fields) && fields % 2 == 0,
        LineWord::Else | LineWord::End => fields == 1,
    }
}

// The form that a field of such a line must have.
fn wanted(word: LineWord, field: usize) -> Form
    ensures { result ≡ form_at word field }
{
    match (word, field) {
        (LineWord::Var | LineWord::Set | LineWord::Rate, 2) => Form::Name,
        (LineWord::Var, _) => Form::Number,
        (LineWord::Rate, _) if field % 2 == 1 => Form::Number,
        (LineWord::Rate, _) => Form::NameOrOne,
        _ => Form::Item,
    }
}

impl Form {
    fn suits(self, token: Token) -> bool
        ensures { result ≡ has_form self token }
    {
        match (self, token) {
            (Form::Name | Form::Item | Form::NameOrOne, Token::Name) => true,
            (Form::Number | Form::Item, Token::Number(_)) => true,
            (Form::Item, Token::Word(word)) => word.is_item(),
            (Form::NameOrOne, Token::Word(word)) => word.is_one(),
            _ => false,
        }
    }
}

// A line as far as it was gone through.
#[derive(Clone, Copy, PartialEq, Eq, Debug)]
pub struct Line {
    pub number: usize,
    pub word: LineWord,
    // how many fields so far
    pub fields: usize,
    // the first of them that has not the form of its place
    pub misfit: Option<usize>,
}

impl Line {
    // A line that begins with this field.
    fn begin(number: usize, token: Token) -> Result<Line, Refusal>
        ensures { result ≡ begin number token }
    {
        let Token::Word(Word::Line(word)) = token else {
            return Err(Refusal::new(Reason::NoLineWord, number, 1));
        };
        Ok(Line {
            number,
            word,
            fields: 1,
            misfit: None,
        })
    }

    // The line with this field more.
    fn with(self, field: usize, token: Token) -> Line
        ensures { result ≡ with_field self field token }
    {
        let fits = wanted(self.word, field).suits(token);
        let misfit = self.misfit.or((!fits).then_some(field));
        Line {
            fields: field,
            misfit,
            ..self
        }
    }

    // The line is over: its field count is judged, and then the forms of its fields.
    fn finish(self) -> Result<(), Refusal>
        ensures { result ≡ finish self }
    {
        if !suits(self.word, self.fields) {
            return Err(Refusal::new(Reason::FieldCount, self.number, 0));
        }
        match self.misfit {
            Some(field) => Err(Refusal::new(Reason::FieldForm, self.number, field)),
            None => Ok(()),
        }
    }
}

// The line under way after this field: the same with one field more, or a new one.
fn next_line(under_way: Option<Line>, token: Token, place: Place) -> Result<Line, Refusal>
    ensures { result ≡ next_line under_way place.line place.field token }
{
    let Some(line) = under_way else {
        return Line::begin(place.line, token);
    };
    if place.field != 1 {
        return Ok(line.with(place.field, token));
    }
    line.finish()?;
    Line::begin(place.line, token)
}

// The number of fields, or what is wrong first, line by line.
pub fn check_lines(text: &[u8]) -> Result<usize, Refusal>
    ensures answer { result ≡ line_check text.now }
    ensures all { IfOk result (λ n. n ≡ length (places text.now)) }
{
    let mut line: Option<Line> = None;
    let mut fields: usize = 0;
    for (field, place) in Cursor::new(text) {
        line = Some(next_line(line, field.token(), place)?);
        fields += 1;
    }
    if let Some(last) = line {
        last.finish()?;
    }
    Ok(fields)
}
