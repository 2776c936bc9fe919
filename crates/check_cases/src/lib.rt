// Texts and what checking them answers.
#![tactic(auto)]

ghost use Rattle.std.specs.Prelude.{◌≡◌};
ghost use Rattle.check_listing.specs.Answers.{answer_to};
ghost use Rattle.check_cases.specs.Answers.{with_room, answers};
ghost use Rattle.check_cases.specs.Examples.{Examples};

use check_listing::answers::{Size, answer_to};
use checker::Refused;
use kinds::fractions::Fractions;
use kinds::small::SmallWholes;
use kinds::thousandths::Thousandths;
use number::Kind;
use script::Entry;

// The answer for a kind, with room for 256 fields.
pub fn answer_in<K: Kind>(text: &[u8]) -> Result<Size, Refused>
    ensures { result ≡ with_room K.Kind.means K.Kind.code text.now }
{
    let mut table = [Entry::BLANK; 256];
    answer_to::<K>(text, &mut table)
}

// The answers for fractions, thousandths and small whole numbers.
pub fn answers_to(
    text: &[u8],
) -> (
    Result<Size, Refused>,
    Result<Size, Refused>,
    Result<Size, Refused>,
)
    ensures { result ≡ answers text.now }
{
    (
        answer_in::<Fractions>(text),
        answer_in::<Thousandths>(text),
        answer_in::<SmallWholes>(text),
    )
}

// What the rules say of some scripts: two that are accepted, and at least one for each condition.
pub fn examples()
    ensures { Examples }
{}

#[cfg(test)]
mod tests;
