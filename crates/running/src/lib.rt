// Runs the lines of a checked script in a kind's numbers, step by step.
#![tactic(auto)]

mod lines;
mod run;
mod runs;
mod steps;

pub use run::{end_line, run_on};
pub use steps::row_at;
