// A bench written as one line of text, and taken up from it.
#![tactic(auto)]

mod reading;
mod scanning;
mod taking;
mod text;
mod writing;

pub use taking::take_line;
pub use writing::write_line;

#[cfg(test)]
mod tests;
