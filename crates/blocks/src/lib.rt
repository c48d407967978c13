// Input by blocks and output, as every program here reads and writes them: from a reader and to a writer, which are standard
// input and standard output in each program's `main`.
//
// A program owns a `large_buffer` for the input, and a `Left` says which bytes of it are still to be taken. `line_end` finds
// the end of a line, `Left::past` goes past the lines that were taken, and `Left::refilled` keeps what is left of a line that
// has begun and reads more behind it. At the end of the input an LF ends that line, so that the last one goes the way of
// every other; a read that fails ends the input as its end does. `write_out` writes until all is taken, by `write`'s own count.
// Where it is known which bytes a reader has left and a writer holds, the clauses say which were taken and which were added.
//
// No call has a condition that its caller must see to. Only these functions make a `Left` or a `Taken`: whoever holds one
// that says the input has ended has had it from a read.
#![tactic(auto)]

mod buffer;
mod ended;
mod left;
mod lines;
mod output;

pub use buffer::{filled, large_buffer};
pub use ended::Ended;
pub use left::Left;
pub use lines::line_end;
pub use output::{Taken, write_out};
