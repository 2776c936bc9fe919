// Why a text is not accepted.
ghost use Rattle.std.specs.Prelude.{◌≡◌};
ghost use Rattle.checker.specs.declared.refused.Refused.TheVariants.{Unread, Unchecked};

use crate::refusals::Refusal;

// The reader refuses the text, or the check refuses the script.
#[derive(Clone, Copy, PartialEq, Eq, Debug)]
pub enum Refused {
    Unread(script::Refusal),
    Unchecked(Refusal),
}

impl From<script::Refusal> for Refused {
    ghost from_gives = { λ e r. r ≡ Unread e };

    fn from(refusal: script::Refusal) -> Refused {
        Refused::Unread(refusal)
    }
}

impl From<Refusal> for Refused {
    ghost from_gives = { λ e r. r ≡ Unchecked e };

    fn from(refusal: Refusal) -> Refused {
        Refused::Unchecked(refusal)
    }
}
