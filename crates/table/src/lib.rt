// Tables: whether bytes are one, and a look into one.
#![tactic(auto)]

mod child;
mod once;
mod walk;
mod whole;

pub use child::find_child;
pub use whole::is_table;
