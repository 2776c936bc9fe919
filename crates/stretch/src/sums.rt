// The derivatives of the variables, one from the other, by the parts of their rates.
ghost use Rattle.std.specs.Prelude.{◌≡◌, ◌<◌, ◌≤◌, IfSome, length, pos, if◌then◌else◌, false};
ghost use Rattle.std.specs.Option.{option_map};
ghost use Rattle.number.specs.Frac.{whole};
ghost use Rattle.motion.specs.Pairs.{numbers_of};
ghost use Rattle.motion.specs.Flow.{of_part, sum as sum_meaning, next as next_meaning};
ghost use Rattle.entries.specs.Decoding.{coefficient_of, factor_of, part_of, parts_in};
ghost use Rattle.record.specs.Benches.{pairs_of};
ghost use Rattle.stretch.specs.Flows.{rates_in, with_part, rate_value};

use crate::rates::Rates;
use entries::Resolved;
use number::{Kind, Pair};
use postfix::{literal, value_at};
use record::Values;
use script::Token;

// 1 or 0 in a kind's numbers.
fn unit<K: Kind>(one: bool) -> Option<Pair>
    ensures { result ≡ K.Kind.code (whole (pos (if one then 1 else 0))) }
{
    K::take(i64::from(one), 1).ok()
}

// The coefficient that a field is; 0 where it is no number.
pub fn coefficient<K: Kind>(token: Token) -> Option<Pair>
    ensures { result ≡ K.Kind.code (coefficient_of token) }
{
    match token {
        Token::Number(n) => literal::<K>(n),
        _ => K::take(0, 1).ok(),
    }
}

// Dk of each variable, and whether k is 0, so that they are the values themselves.
#[derive(Clone, Copy)]
pub struct Derivatives {
    pub values: Values,
    pub first: bool,
    pub ghost few: { values.count ≤ 16 },
}

impl Derivatives {
    fn pairs(&self) -> &[Pair]
        ensures values { result.now ≡ pairs_of self.now.values }
        ensures len { length result.now ≡ self.now.values.count }
    {
        self.values.as_slice()
    }

    // Dk of what a part multiplies; that of the constant 1 is 1 for k = 0, and then 0.
    fn factor<K: Kind>(&self, token: Token, place: Option<u8>) -> Option<Pair>
        ensures { result ≡ of_part (numbers_of K.Kind.means K.Kind.code) self.now.first (pairs_of self.now.values) (factor_of token place) }
    {
        match token {
            Token::Name => value_at(self.pairs(), place),
            _ => unit::<K>(self.first),
        }
    }

    // A sum and one part more.
    fn add_part<K: Kind>(&self, acc: Pair, by: Token, of: Token, place: Option<u8>) -> Option<Pair>
        ensures { result ≡ with_part (numbers_of K.Kind.means K.Kind.code) self.now.first (pairs_of self.now.values) acc (part_of by of place) }
    {
        let c = coefficient::<K>(by)?;
        let v = self.factor::<K>(of, place)?;
        let m = K::mul(c, v).ok()?;
        K::add(acc, m).ok()
    }

    // The sum over the parts, two entries to a part, from left to right.
    fn sum<K: Kind>(&self, zero: Pair, parts: Resolved) -> Option<Pair>
        ensures { result ≡ sum_meaning (numbers_of K.Kind.means K.Kind.code) self.now.first (pairs_of self.now.values) zero (parts_in parts.entry) }
    {
        let mut acc = zero;
        let variables = parts.variables.chunks_exact(2);
        for (fields, places) in parts.entries.chunks_exact(2).zip(variables) {
            acc = self.add_part::<K>(acc, fields[0].token, fields[1].token, places[1])?;
        }
        Some(acc)
    }

    // D(k+1) of a variable.
    fn rate_of<K: Kind>(&self, rates: &Rates, x: u8) -> Option<Pair>
        requires { x < 16 }
        ensures { result ≡ rate_value (numbers_of K.Kind.means K.Kind.code) self.now.first (rates_in rates.now) (pairs_of self.now.values) x }
    {
        let zero = unit::<K>(false)?;
        match rates.parts(x) {
            Some(parts) => self.sum::<K>(zero, parts),
            None => Some(zero),
        }
    }

    // D(k+1) of each variable.
    pub fn next<K: Kind>(&self, rates: &Rates) -> Option<Derivatives>
        ensures pairs { option_map (λ d. pairs_of d.values) result ≡ next_meaning (numbers_of K.Kind.means K.Kind.code) self.now.first (rates_in rates.now) (pairs_of self.now.values) 0 self.now.values.count }
        ensures len { length (pairs_of self.now.values) ≡ self.now.values.count }
        ensures count { IfSome result (λ d. d.values.count ≡ self.now.values.count) }
        ensures later { IfSome result (λ d. d.first ≡ false) }
    {
        let count = self.pairs().len();
        let mut pairs = [Pair { a: 0, b: 0 }; 16];
        for (x, pair) in pairs[..count].iter_mut().enumerate() {
            *pair = self.rate_of::<K>(rates, x as u8)?;
        }
        Some(Derivatives {
            values: Values { count, pairs },
            first: false,
        })
    }
}
