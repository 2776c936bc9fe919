// Why and where a draft is refused.
ghost use Rattle.std.specs.Prelude.{◌≡◌};

use refusal::Numbered;

// The reasons by their numbers.
#[derive(Clone, Copy, PartialEq, Eq, Debug)]
pub enum Reason {
    OtherTable = 8,
    VarOutOfPlace = 9,
    NameNotDeclared = 10,
    NumberNotHeld = 11,
    RateOutOfPlace = 12,
    Blocks = 13,
    Items = 14,
    Chains = 15,
}

// A refusal for one of these reasons.
pub type Refusal = refusal::Refusal<Reason>;

impl Reason {
    ghost use Rattle.checker.specs.Refusals.{number_of};

    // The number by which a reason is known.
    pub fn number(self) -> u8
        ensures { result ≡ number_of self }
    {
        self as u8
    }
}

impl Numbered for Reason {
    ghost use Rattle.checker.specs.Refusals.{number_of as numbers};

    ghost number_of = { numbers };

    fn number(self) -> u8 {
        Reason::number(self)
    }
}
