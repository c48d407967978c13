// A code's sheet: the figures of its tally, and the report that asks for them.
#![tactic(auto)]

mod answer;
mod memory;
mod sheet;
mod theorems;

pub use memory::report;
pub use sheet::Sheet;
pub use theorems::{always_apart, bench};
