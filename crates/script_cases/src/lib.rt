// Texts and what reading them answers.
#![tactic(auto)]

ghost use Rattle.std.specs.Prelude.{◌≡◌, length};
ghost use Rattle.script.specs.Reading.{read_of};
ghost use Rattle.script_cases.specs.Examples.{Examples};

use script::{Entry, Refusal, read};

// The answer of a reading: the numbers of lines and fields, or the refusal.
pub fn answer_to(text: &[u8], table: &mut [Entry]) -> Result<(usize, usize), Refusal>
    ensures { result ≡ read_of text.now (length table.old) }
{
    let draft = read(text, table)?;
    Ok((draft.lines(), draft.fields()))
}

// What the definitions say of some texts: two that are accepted, and one for nearly each refusal.
pub fn examples()
    ensures { Examples }
{}

#[cfg(test)]
mod tests;
