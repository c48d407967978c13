// The lines that the program prints: document 01, "Text lines". They are written straight into a lent buffer.
#![tactic(auto)]

mod buffer;
mod lines;
mod reply;
mod report;

pub use lines::Lines;
pub use reply::reply_line;
pub use report::sheet_lines;

// The room that the line of a reply is written to; none has more than 252 bytes.
pub const REPLY_ROOM: usize = 256;
// The room that a sheet is written to; none has more than 1,077 bytes.
pub const SHEET_ROOM: usize = 2048;
