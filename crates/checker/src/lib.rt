// Checks a script that was read for one kind of number.
#![tactic(auto)]

mod chains;
mod checking;
mod jumps;
mod line_ends;
mod lines;
mod names;
mod refusals;
mod refused;
mod rows;
mod scripts;

pub use checking::{check, kinds_differ_by_numbers, lines_judged, lines_of_text, scripts_laid};
pub use entries::items_sorted;
pub use refusals::{Reason, Refusal};
pub use refused::Refused;
pub use scripts::Checked;
