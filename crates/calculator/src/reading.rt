// Reads a line as a question to a kind.
ghost use Rattle.std.specs.Prelude.{◌≡◌, ◌<◌};
ghost use Rattle.std.specs.Option.{option_map};
ghost use Rattle.std.specs.Result.{result_ok};
ghost use Rattle.calculator.specs.Reading.{parted, both_now, integer_of, natural_of, ratio_of, two_of, scaling_of, question_from, kind_of, read_of};

use number::Operation;
use std::error::Error;
use std::fmt;
use std::str::FromStr;

// A text that is not understood.
#[derive(Clone, Copy, PartialEq, Eq, Debug)]
pub struct NotUnderstood;

impl fmt::Display for NotUnderstood {
    ghost use Rattle.std.specs.Prelude.{Some, codes};

    ghost output = { λ _. Some (codes "not understood") };

    fn fmt<W: fmt::Write>(&self, f: &mut fmt::Formatter<W>) -> fmt::Result {
        f.write_str("not understood")
    }
}

impl Error for NotUnderstood {}

// A kind by its name.
#[derive(Clone, Copy, PartialEq, Eq, Debug)]
pub enum KindName {
    Fractions,
    Thousandths,
    Small,
}

impl FromStr for KindName {
    type Err = NotUnderstood;

    ghost from_str_gives = { λ text r. result_ok r ≡ kind_of text };

    fn from_str(text: &str) -> Result<KindName, NotUnderstood> {
        match text {
            "fractions" => Ok(KindName::Fractions),
            "thousandths" => Ok(KindName::Thousandths),
            "small" => Ok(KindName::Small),
            _ => Err(NotUnderstood),
        }
    }
}

// A fraction as it is written: n / d.
#[derive(Clone, Copy, PartialEq, Eq, Debug)]
pub struct Ratio {
    pub n: i64,
    pub d: i64,
}

// The text before and after the first `at`.
fn part(text: &str, at: char) -> Option<(&str, &str)>
    requires { at < 128 }
    ensures { option_map both_now result ≡ parted at text.now }
{
    text.split_once(at)
}

// A whole number of 64 bits.
fn integer(text: &str) -> Result<i64, NotUnderstood>
    ensures { result_ok result ≡ integer_of text.now }
{
    text.parse().map_err(|_| NotUnderstood)
}

// A whole number of 32 bits without minus.
fn natural(text: &str) -> Result<u32, NotUnderstood>
    ensures { result_ok result ≡ natural_of text.now }
{
    text.parse().map_err(|_| NotUnderstood)
}

// `N/D` or `N`.
impl FromStr for Ratio {
    type Err = NotUnderstood;

    ghost from_str_gives = { λ text r. result_ok r ≡ ratio_of text };

    fn from_str(text: &str) -> Result<Ratio, NotUnderstood> {
        match part(text, '/') {
            Some((n, d)) => Ok(Ratio {
                n: integer(n)?,
                d: integer(d)?,
            }),
            None => Ok(Ratio {
                n: integer(text)?,
                d: 1,
            }),
        }
    }
}

// What a kind is asked.
#[derive(Clone, Copy, PartialEq, Eq, Debug)]
pub enum Question {
    Take(Ratio),
    Two(Operation, Ratio, Ratio),
    Scale(Ratio, u32, u32),
}

// `X,Y`
fn read_two(text: &str, operation: Operation) -> Result<Question, NotUnderstood>
    ensures { result_ok result ≡ two_of text.now operation }
{
    let (p, q) = part(text, ',').ok_or(NotUnderstood)?;
    Ok(Question::Two(operation, p.parse()?, q.parse()?))
}

// `X,N,K`
fn read_scaling(text: &str) -> Result<Question, NotUnderstood>
    ensures { result_ok result ≡ scaling_of text.now }
{
    let (p, rest) = part(text, ',').ok_or(NotUnderstood)?;
    let (n, k) = part(rest, ',').ok_or(NotUnderstood)?;
    Ok(Question::Scale(p.parse()?, natural(n)?, natural(k)?))
}

// `WORD,..`
impl FromStr for Question {
    type Err = NotUnderstood;

    ghost from_str_gives = { λ text r. result_ok r ≡ question_from text };

    fn from_str(text: &str) -> Result<Question, NotUnderstood> {
        let (word, rest) = part(text, ',').ok_or(NotUnderstood)?;
        match word {
            "take" => Ok(Question::Take(rest.parse()?)),
            "scale" => read_scaling(rest),
            "add" => read_two(rest, Operation::Add),
            "sub" => read_two(rest, Operation::Sub),
            "mul" => read_two(rest, Operation::Mul),
            "div" => read_two(rest, Operation::Div),
            "lt" => read_two(rest, Operation::Lt),
            "le" => read_two(rest, Operation::Le),
            _ => Err(NotUnderstood),
        }
    }
}

// The question that a line asks, and of which kind.
pub fn read(line: &str) -> Option<(KindName, Question)>
    ensures { result ≡ read_of line.now }
{
    let (name, rest) = part(line, ',')?;
    Some((name.parse().ok()?, rest.parse().ok()?))
}
