// The lines that the program `fields` prints.
#![tactic(auto)]

ghost use Rattle.std.specs.Prelude.{◌≡◌, ◌++◌, length, IfOk, string_bytes};
ghost use Rattle.listing.specs.Rows.{kind_of, entry_line, entry_lines, total_line, refusal_line, printed, RoomEnough};

use script::{Draft, Entry, MOST_FIELDS, Refusal, Token, read};
use std::alloc::{AllocError, Global};

fn kind(token: Token) -> &'static str
    ensures { result.now ≡ kind_of token }
{
    match token {
        Token::Word(_) => "word",
        Token::Name => "name",
        Token::Number(_) => "number",
        Token::Other => "other",
    }
}

// `LINE,FIELD,WHAT,BYTES` and a line feed.
fn row(heap: Global, text: &[u8], entry: Entry) -> Result<Vec<u8>, AllocError>
    ensures { IfOk result (λ v. v.items ≡ entry_line text.now entry) }
{
    let line = entry.place.line;
    let field = entry.place.field;
    let what = kind(entry.token);
    let mut out = format!(in heap; "{line},{field},{what},")?.into_bytes();
    out.extend_from_slice(entry.place.bytes(text))?;
    out.push(b'\n')?;
    Ok(out)
}

// Such a line for each entry.
fn rows(heap: Global, text: &[u8], entries: &[Entry]) -> Result<Vec<u8>, AllocError>
    ensures { IfOk result (λ v. v.items ≡ entry_lines text.now entries.now) }
{
    let mut out: Vec<u8> = Vec::new(heap);
    for entry in entries {
        out.extend_from_slice(row(heap, text, *entry)?.as_slice())?;
    }
    Ok(out)
}

// `read,LINES,FIELDS` and a line feed.
fn total(heap: Global, lines: usize, fields: usize) -> Result<String, AllocError>
    ensures { IfOk result (λ s. string_bytes s ≡ total_line lines fields) }
{
    format!(in heap; "read,{lines},{fields}\n")
}

// `refused,NUMBER,LINE,FIELD` and a line feed.
pub fn refused(heap: Global, refusal: Refusal) -> Result<String, AllocError>
    ensures { IfOk result (λ s. string_bytes s ≡ refusal_line refusal) }
{
    format!(in heap; "refused,{refusal}\n")
}

// What is printed of an accepted text.
fn accepted(heap: Global, draft: &Draft, entries: &[Entry]) -> Result<Vec<u8>, AllocError>
    ensures { IfOk result (λ v. v.items ≡ entry_lines draft.now.text.now entries.now ++ total_line draft.now.lines (length entries.now)) }
{
    let mut out = rows(heap, draft.text(), entries)?;
    out.extend_from_slice(total(heap, draft.lines(), entries.len())?.as_bytes())?;
    Ok(out)
}

fn report_all(heap: Global, text: &[u8]) -> Result<Vec<u8>, AllocError>
    ensures { IfOk result (λ v. v.items ≡ printed text.now) }
{
    let mut table = [Entry::BLANK; MOST_FIELDS];
    match read(text, &mut table) {
        Ok(draft) => accepted(heap, &draft, &table[..draft.fields()]),
        Err(refusal) => Ok(refused(heap, refusal)?.into_bytes()),
    }
}

// All that is printed of a text: a line for each field and one for the whole, or why it is refused.
pub fn report(heap: Global, text: &[u8]) -> Result<Vec<u8>, AllocError>
    ensures printed { IfOk result (λ v. v.items ≡ printed text.now) }
    ensures roomy { RoomEnough text.now }
{
    report_all(heap, text)
}
