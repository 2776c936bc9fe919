// What the entries of a script are: the lines that they stand for, the rules of items, and whether a table is that of a text.
#![tactic(auto)]

ghost use Rattle.entries.specs.Running.{ItemsSorted};

mod fields;
mod resolved;
mod rows;
mod sorts;
mod tables;

pub use fields::{find_name, first_undeclared, first_unheld, is_name, numerator, word_of};
pub use resolved::Resolved;
pub use rows::{NO_VARIABLE, Row, between};
pub use sorts::{Sort, items_give};
pub use tables::same_table;

// Items that keep their rules break none when they are worked out, in any numbers: they come to values of the sorts that the
// check found, or are refused by 21 or 23.
pub fn items_sorted<V>()
    ensures { ItemsSorted V }
{}
