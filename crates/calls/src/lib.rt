// What the programs have in common that answer calls: an input gives calls, line by line, and the line that begins a call, or
// the end, closes the call before it. `specs/` says what such a program prints over a whole input, whatever its calls are;
// `proofs/` has the turns of its loop.
#![tactic(auto)]

mod fixed;
mod input;
mod parts;
#[cfg(test)]
mod tests;

pub use fixed::{Calls, OUTPUT_ROOM, serve_input};
pub use input::{CallsWithRoom, serve_input_with_room};
pub use parts::{note, refuse};
