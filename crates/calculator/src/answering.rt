// Puts a question to a kind of number.
ghost use Rattle.std.specs.Prelude.{◌≡◌, Some};
ghost use Rattle.calculator.specs.Answering.{Exact, told, replied};
ghost use Rattle.calculator.specs.Texts.{reply_text};

use super::reading::Question;
use number::{Answer, Fault, Kind, Pair};
use std::fmt;

// What a kind answers: lowest terms, or a truth.
#[derive(Clone, Copy, PartialEq, Eq, Debug)]
pub enum Reply {
    Number(i64, i64),
    Truth(bool),
}

// A whole number is printed without slash.
impl fmt::Display for Reply {
    ghost output = { λ reply. Some (reply_text reply) };

    fn fmt<W: fmt::Write>(&self, f: &mut fmt::Formatter<W>) -> fmt::Result {
        match *self {
            Reply::Number(n, 1) => write!(f, "{n}"),
            Reply::Number(n, d) => write!(f, "{n}/{d}"),
            Reply::Truth(t) => write!(f, "{t}"),
        }
    }
}

// The lowest terms of a number.
fn tell<K: Kind>(p: Pair) -> Result<Reply, Fault>
    ensures { result ≡ told K.Kind.means p }
{
    let (n, d) = K::terms(p)?;
    Ok(Reply::Number(n, d))
}

// The fractions are taken, and then worked on.
fn work<K: Kind>(question: Question) -> Result<Reply, Fault>
    ensures { result ≡ replied K.Kind.means K.Kind.code question }
{
    match question {
        Question::Take(x) => tell::<K>(K::take(x.n, x.d)?),
        Question::Two(operation, x, y) => {
            let p = K::take(x.n, x.d)?;
            let q = K::take(y.n, y.d)?;
            match operation.apply::<K>(p, q)? {
                Answer::Number(s) => tell::<K>(s),
                Answer::Truth(t) => Ok(Reply::Truth(t)),
            }
        }
        Question::Scale(x, n, k) => {
            let p = K::take(x.n, x.d)?;
            tell::<K>(K::scale(p, n, k)?)
        }
    }
}

// The answer of a kind: the exact one, or a refusal.
pub fn respond<K: Kind>(question: Question) -> Result<Reply, Fault>
    ensures value { result ≡ replied K.Kind.means K.Kind.code question }
    ensures exact { Exact question result }
{
    work::<K>(question)
}
