// Exact fractions, and kinds of number: each holds some fractions exactly, and says so where it does not.
#![tactic(auto)]

ghost use Rattle.std.specs.Prelude.{◌≡◌, ◌≤◌, ◌*ℤ◌, Some, None, Ok, Err, Option, unsigned_abs};
ghost use Rattle.number.specs.declared.Pair.{Pair};
ghost use Rattle.number.specs.Frac.{Frac, add as plus, sub as minus, mul as times, less, at_most};
ghost use Rattle.number.specs.Fault.{fault_text};
ghost use Rattle.number.specs.Theorems.{Equality, CommutativeRing, Scaling, Division, Order, Flow, Polynomial, Examples, Answers};
ghost use Rattle.number.specs.Kind.{Holds, taken, exact2, divided, scaled, in_terms, asked2, applied, stepped, worked, Exactly};

use std::error::Error;
use std::fmt;

// Why a kind gives no answer.
#[derive(Clone, Copy, PartialEq, Eq, Debug)]
pub enum Fault {
    NotHeld,
    ZeroDivisor,
}

impl fmt::Display for Fault {
    ghost output = { λ fault. Some (fault_text fault) };

    fn fmt<W: fmt::Write>(&self, f: &mut fmt::Formatter<W>) -> fmt::Result {
        f.write_str(match self {
            Fault::NotHeld => "not held",
            Fault::ZeroDivisor => "zero divisor",
        })
    }
}

impl Error for Fault {}

// What a number is written as; its kind says what it means, if anything.
#[derive(Clone, Copy, PartialEq, Eq, Debug)]
pub struct Pair {
    pub a: i64,
    pub b: i64,
}

// A product of two numbers within the limit, which fits.
fn product(a: i64, b: i64) -> i64
    requires { (unsigned_abs a ≤ 2147483647) × (unsigned_abs b ≤ 2147483647) }
    ensures value { result ≡ a *ℤ b }
    ensures bound { unsigned_abs result ≤ 4611686014132420609 }
{
    a * b
}

// A kind of number: `means` says which pairs are its numbers and which fraction each is, `code` which pair a fraction has.
// A kind gives these two, their laws, `take` and `terms`; the operations are the same for all.
pub trait Kind {
    ghost means: { Pair → Option Frac };

    ghost code: { Frac → Option Pair };

    // The pair of n / d.
    fn take(n: i64, d: i64) -> Result<Pair, Fault>
        ensures { result ≡ taken means code n d };

    // The lowest terms of a number.
    fn terms(p: Pair) -> Result<(i64, i64), Fault>
        ensures { result ≡ in_terms means p };

    // p + q
    fn add(p: Pair, q: Pair) -> Result<Pair, Fault>
        ensures { result ≡ exact2 means code plus p q }
    {
        let (a, b) = Self::terms(p)?;
        let (c, d) = Self::terms(q)?;
        Self::take(product(a, d) + product(c, b), product(b, d))
    }

    // p - q
    fn sub(p: Pair, q: Pair) -> Result<Pair, Fault>
        ensures { result ≡ exact2 means code minus p q }
    {
        let (a, b) = Self::terms(p)?;
        let (c, d) = Self::terms(q)?;
        Self::take(product(a, d) - product(c, b), product(b, d))
    }

    // p q
    fn mul(p: Pair, q: Pair) -> Result<Pair, Fault>
        ensures { result ≡ exact2 means code times p q }
    {
        let (a, b) = Self::terms(p)?;
        let (c, d) = Self::terms(q)?;
        Self::take(product(a, c), product(b, d))
    }

    // p / q
    fn div(p: Pair, q: Pair) -> Result<Pair, Fault>
        ensures { result ≡ divided means code p q }
    {
        let (a, b) = Self::terms(p)?;
        let (c, d) = Self::terms(q)?;
        if c == 0 {
            return Err(Fault::ZeroDivisor);
        }
        if c > 0 {
            Self::take(product(a, d), product(b, c))
        } else {
            Self::take(-product(a, d), -product(b, c))
        }
    }

    // p n / k
    fn scale(p: Pair, n: u32, k: u32) -> Result<Pair, Fault>
        ensures { result ≡ scaled means code p n k }
    {
        if n > 2147483647 || !matches!(k, 1..=4) {
            return Err(Fault::NotHeld);
        }
        let (a, b) = Self::terms(p)?;
        Self::take(product(a, n as i64), product(b, k as i64))
    }

    // p < q
    fn lt(p: Pair, q: Pair) -> Result<bool, Fault>
        ensures { result ≡ asked2 means less p q }
    {
        let (a, b) = Self::terms(p)?;
        let (c, d) = Self::terms(q)?;
        Ok(product(a, d) < product(c, b))
    }

    // p <= q
    fn le(p: Pair, q: Pair) -> Result<bool, Fault>
        ensures { result ≡ asked2 means at_most p q }
    {
        let (a, b) = Self::terms(p)?;
        let (c, d) = Self::terms(q)?;
        Ok(product(a, d) <= product(c, b))
    }

    ghost sound: { Holds means code };
}

// A calculation or a comparison of two numbers.
#[derive(Clone, Copy, PartialEq, Eq, Debug)]
pub enum Operation {
    Add,
    Sub,
    Mul,
    Div,
    Lt,
    Le,
}

// What an operation comes to.
#[derive(Clone, Copy, PartialEq, Eq, Debug)]
pub enum Answer {
    Number(Pair),
    Truth(bool),
}

impl Operation {
    // The operation on two numbers of a kind.
    pub fn apply<K: Kind>(self, p: Pair, q: Pair) -> Result<Answer, Fault>
        ensures { result ≡ applied K.Kind.means K.Kind.code self p q }
    {
        match self {
            Operation::Add => K::add(p, q).map(Answer::Number),
            Operation::Sub => K::sub(p, q).map(Answer::Number),
            Operation::Mul => K::mul(p, q).map(Answer::Number),
            Operation::Div => K::div(p, q).map(Answer::Number),
            Operation::Lt => K::lt(p, q).map(Answer::Truth),
            Operation::Le => K::le(p, q).map(Answer::Truth),
        }
    }
}

// d + r n / k
pub fn step<K: Kind>(d: Pair, r: Pair, n: u32, k: u32) -> Result<Pair, Fault>
    ensures { result ≡ stepped K.Kind.means K.Kind.code d r n k }
{
    let s = K::scale(r, n, k)?;
    K::add(d, s)
}

// A quantity at its start, and its first four derivatives per tick; the fifth is 0.
#[derive(Clone, Copy, PartialEq, Eq, Debug)]
pub struct Quantity {
    pub d0: Pair,
    pub d1: Pair,
    pub d2: Pair,
    pub d3: Pair,
    pub d4: Pair,
}

impl Quantity {
    // The value n ticks on, if each number on the way is held.
    pub fn value_at<K: Kind>(self, n: u32) -> Result<Pair, Fault>
        ensures value { result ≡ worked K.Kind.means K.Kind.code self n }
        ensures exact { Exactly K.Kind.means self n result }
    {
        let r3 = step::<K>(self.d3, self.d4, n, 4)?;
        let r2 = step::<K>(self.d2, r3, n, 3)?;
        let r1 = step::<K>(self.d1, r2, n, 2)?;
        step::<K>(self.d0, r1, n, 1)
    }
}

// Each function below carries one theorem and has no work of its own.

// Equality of fractions is equality of lowest terms, and of cross products.
pub fn equality_stands()
    ensures { Equality }
{}

// Fractions are a commutative ring.
pub fn ring_stands()
    ensures { CommutativeRing }
{}

// Scaling distributes.
pub fn scaling_stands()
    ensures { Scaling }
{}

// Division inverts multiplication.
pub fn division_stands()
    ensures { Division }
{}

// The order is total, and agrees with subtraction.
pub fn order_stands()
    ensures { Order }
{}

// To go n ticks and then m is to go n + m.
pub fn flow_stands()
    ensures { Flow }
{}

// The Horner form is the polynomial.
pub fn polynomial_stands()
    ensures { Polynomial }
{}

// Examples, by computing.
pub fn examples_stand()
    ensures { Examples }
{}

// What holds of the answers of any kind.
pub fn answers_stand<K: Kind>()
    ensures { Answers K.Kind.means K.Kind.code }
{}
