// Reads the text of a motion script: bytes to fields to entries.
#![tactic(auto)]

mod checks;
mod numbers;
mod places;
mod reading;
mod refusals;
mod tokens;
mod words;

pub use checks::{MOST_BYTES, MOST_FIELDS};
pub use numbers::{Number, number_of};
pub use places::{Cursor, Place};
pub use reading::{Draft, Entry, read};
pub use refusals::{Reason, Refusal};
pub use tokens::{Field, Token};
pub use words::{LineWord, Operator, Word, word_of};
