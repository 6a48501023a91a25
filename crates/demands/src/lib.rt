// What is asked of the operations, as contracts of functions that call them: a weaker contract below is refused here.
#![tactic(auto)]

mod evaluating;
mod met;
mod operations;

pub use evaluating::evaluates;
pub use operations::{resolves, runs, takes_main, translates};
