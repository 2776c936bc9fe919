// A list of calls on one bench, as data, and its performance.
#![tactic(auto)]

mod calls;
mod performing;

pub use calls::{Answer, Call, Step};
pub use checker::Refused;
pub use performing::{perform, perform_two};
