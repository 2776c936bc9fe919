// The bench: five calls on a checked script's exact curve.
#![tactic(auto)]

mod building;
mod calls;
mod fitting;

pub use building::build;
pub use calls::{advance, next_joint, reading, take_up, write};
pub use fitting::fits;
pub use record::{Bench, Reason, Refusal, Values};
