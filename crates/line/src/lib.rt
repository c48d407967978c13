// The line: its record, and the twelve kinds of event on it.
#![tactic(auto)]

mod apply;
mod command;
mod effect;
mod faults;
mod fit;
mod judging;
mod line;
mod sample;
mod step;
mod tallying;

pub use line::Line;
pub use step::Step;
