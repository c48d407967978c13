// The devices along the belt: the sensor that sees boxes and the sorter with its queue. Each is a struct by value; a tick
// gives the next one.
#![tactic(auto)]

mod sensor;
mod sorter;

pub use sensor::Sensor;
pub use sorter::Sorter;
