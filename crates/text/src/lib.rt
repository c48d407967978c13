// What a line of text says: an event or a report; a line that says neither is `None`.
#![tactic(auto)]

use event::Event;

mod form;
mod meaning;
mod quick;
mod reader;

pub use quick::has_key;
pub use reader::read_line;

// A line of text has at most so many bytes.
pub const LONGEST_LINE: usize = 300;

#[derive(Clone, Copy)]
pub enum Read {
    Event(Event),
    Report(u64),
}
