// What is asked of a table with no plan and no text: how many sections its problem has, and its least bound.
// An entry each, since each is equal to a definition of its own.
#![tactic(auto)]

mod least_bound;
mod sections;

pub use least_bound::find_least;
pub use sections::count_sections;
