// The text of the program `exits`: what a line of its input says, and the lines that a call prints. Document 02, T-13, as packers
// use it.
//
// `read_entry` tells what a line says: a call begins, a verdict's tick, a signal's tick, or none of these. `call_lines` pairs
// the lists of a call and writes its answer. Neither asks anything of its caller.
#![tactic(auto)]

mod entry;
mod lines;

pub use entry::{Entry, read_entry};
pub use lines::{CALL_ROOM, call_lines};
