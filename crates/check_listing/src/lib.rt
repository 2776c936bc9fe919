// The lines that the program `checked` prints.
#![tactic(auto)]

ghost use Rattle.std.specs.Prelude.{◌≡◌, List, ◌++◌, IfOk, string_bytes};
ghost use Rattle.check_listing.specs.Answers.{answer_to};
ghost use Rattle.check_listing.specs.Printed.{answer_line, kind_line, kind_lines, printed};

use answers::{Size, answer_to};
use checker::Refused;
use kinds::fractions::Fractions;
use kinds::small::SmallWholes;
use kinds::thousandths::Thousandths;
use listing::refused;
use number::Kind;
use script::{Entry, MOST_FIELDS, read};
use std::alloc::{AllocError, Global};

pub mod answers;

// The line of a kind by the answer for it: `KIND,ok,VARIABLES,LINES` or `KIND,refused,NUMBER,LINE,FIELD` and a line feed.
fn answer_text(
    heap: Global,
    kind: &str,
    answer: Result<Size, Refused>,
) -> Result<String, AllocError>
    ensures { IfOk result (λ s. string_bytes s ≡ answer_line kind.now answer) }
{
    match answer {
        Ok(Size { variables, lines }) => format!(in heap; "{kind},ok,{variables},{lines}\n"),
        Err(Refused::Unchecked(refusal)) => format!(in heap; "{kind},refused,{refusal}\n"),
        Err(Refused::Unread(refusal)) => refused(heap, refusal),
    }
}

// The line of the kind K, which has this name.
fn kind_text<K: Kind>(heap: Global, kind: &str, text: &[u8]) -> Result<String, AllocError>
    ensures { IfOk result (λ s. string_bytes s ≡ kind_line K.Kind.means K.Kind.code kind.now text.now) }
{
    let mut table = [Entry::BLANK; MOST_FIELDS];
    answer_text(heap, kind, answer_to::<K>(text, &mut table))
}

// The lines of the three kinds.
fn kind_texts(heap: Global, text: &[u8]) -> Result<Vec<u8>, AllocError>
    ensures { IfOk result (λ v. v.items ≡ kind_lines text.now) }
{
    let mut out = kind_text::<Fractions>(heap, "fractions", text)?.into_bytes();
    out.extend_from_slice(kind_text::<Thousandths>(heap, "thousandths", text)?.as_bytes())?;
    out.extend_from_slice(kind_text::<SmallWholes>(heap, "small", text)?.as_bytes())?;
    Ok(out)
}

// All that is printed of a text: a line for each kind, or why it is no script.
pub fn report(heap: Global, text: &[u8]) -> Result<Vec<u8>, AllocError>
    ensures { IfOk result (λ v. v.items ≡ printed text.now) }
{
    let mut table = [Entry::BLANK; MOST_FIELDS];
    match read(text, &mut table) {
        Ok(_draft) => kind_texts(heap, text),
        Err(refusal) => Ok(refused(heap, refusal)?.into_bytes()),
    }
}
