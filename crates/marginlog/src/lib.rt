// The text of the program `margin`: what a line of its input says, and the line that a call prints. Document 02, T-12, as
// metrology staff use it.
//
// `read_entry` tells what a line says: a call begins, a code's settings, a sample, or none of these. `call_line` makes the call
// and writes its answer. Neither asks anything of its caller.
#![tactic(auto)]

mod entry;
mod lines;

pub use entry::{Entry, read_entry};
pub use lines::call_line;
