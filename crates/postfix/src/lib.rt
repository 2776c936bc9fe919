// Works out the items of a line in a kind's numbers, from left to right over what waits.
#![tactic(auto)]

mod expression;
mod flaw;
mod stack;
#[cfg(test)]
mod tests;
mod values;
mod working;

pub use expression::Expression;
pub use values::{literal, value_at};
