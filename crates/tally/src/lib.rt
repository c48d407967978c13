// A code's tally, by value.
#![tactic(auto)]

mod counts;
mod tally;

pub use counts::Counts;
pub use tally::Tally;
