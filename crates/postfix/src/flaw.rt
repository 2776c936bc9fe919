// What is wrong with items that are worked out.
ghost use Rattle.std.specs.Prelude.{◌≡◌};
ghost use Rattle.postfix.specs.Flaws.{flawed, refusal_on};

use number::Fault;
use record::{Reason, Refusal, refuse};

#[derive(Clone, Copy, PartialEq, Eq, Debug)]
pub enum Flaw {
    // they break the rules of items
    Broken,
    // at this field a number is not held
    NotHeld(u32),
    // at this field a divisor is zero
    ZeroDivisor(u32),
}

impl Flaw {
    // A kind's fault at this field.
    pub fn new(fault: Fault, field: u32) -> Flaw
        ensures { result ≡ flawed fault «field» }
    {
        match fault {
            Fault::NotHeld => Flaw::NotHeld(field),
            Fault::ZeroDivisor => Flaw::ZeroDivisor(field),
        }
    }

    // The refusal on this line.
    pub fn on(self, line: u32) -> Refusal
        ensures { result ≡ refusal_on line self }
    {
        match self {
            Flaw::Broken => refuse(Reason::ItemsBroken, line, 0),
            Flaw::NotHeld(field) => refuse(Reason::NotHeld, line, field),
            Flaw::ZeroDivisor(field) => refuse(Reason::ZeroDivisor, line, field),
        }
    }
}
