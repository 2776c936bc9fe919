// A bench as a plain record, and why a call on it is refused.
#![tactic(auto)]

ghost use Rattle.std.specs.Prelude.{◌≡◌, ◌≤◌, length};
ghost use Rattle.record.specs.Benches.{pairs_of};
ghost use Rattle.refusal.specs.Refusals.{refused};

use number::Pair;
use refusal::Numbered;

// The largest count of ticks.
pub const MOST_TICKS: u32 = 2147483647;

// The values of the variables, in var order: the first `count` of the pairs.
#[derive(Clone, Copy, PartialEq, Eq, Debug)]
pub struct Values {
    pub count: usize,
    pub pairs: [Pair; 16],
}

impl Values {
    // The values that count: as many as it says, and at most 16.
    pub fn as_slice(&self) -> &[Pair]
        ensures values { result.now ≡ pairs_of self.now }
        ensures len { self.now.count ≤ 16 → length result.now ≡ self.now.count }
    {
        self.pairs.get(..self.count).unwrap_or(&self.pairs)
    }
}

// A bench: its line and the ticks left in its stretch, the total of accepted ticks, the ticks over, and the values.
#[derive(Clone, Copy, PartialEq, Eq, Debug)]
pub struct Bench {
    pub line: u32,
    pub left: u32,
    pub total: u32,
    pub over: u32,
    pub values: Values,
}

// The reasons by their numbers.
#[derive(Clone, Copy, PartialEq, Eq, Debug)]
pub enum Reason {
    LineForm = 16,
    ValueNotHeld = 17,
    NotFitting = 18,
    TooManyTicks = 19,
    StepsUsedUp = 20,
    ZeroDivisor = 21,
    NoDuration = 22,
    NotHeld = 23,
    NotHeldWhereCut = 24,
    NameNotDeclared = 25,
    BufferTooShort = 26,
    // no checked script meets these two: items that break their rules, and a line that is no statement
    ItemsBroken = 14,
    NoStatement = 0,
}

// A refusal for one of these reasons.
pub type Refusal = refusal::Refusal<Reason, u32>;

impl Reason {
    ghost use Rattle.record.specs.Refusals.{number_of};

    // The number by which a reason is known.
    pub fn number(self) -> u8
        ensures { result ≡ number_of self }
    {
        self as u8
    }
}

impl Numbered for Reason {
    ghost use Rattle.record.specs.Refusals.{number_of as numbers};

    ghost number_of = { numbers };

    fn number(self) -> u8 {
        Reason::number(self)
    }
}

// A refusal for this reason, at this line and field of a script.
pub fn refuse(reason: Reason, line: u32, field: u32) -> Refusal
    ensures { result ≡ refused reason line «field» }
{
    Refusal::new(reason, line, field)
}
