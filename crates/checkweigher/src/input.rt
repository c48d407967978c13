// The input to the output, until the input ends.
ghost use Rattle.blocks.specs.Known.{streams};
ghost use Rattle.checkweigher.specs.Traces.{EndsSo};

use blocks::{Ended, Left, large_buffer, write_out};
use controller::no_room;
use line::Line;
use sessions::serve_block;
use settings::{RECORDS, Settings};
use std::io::{Read, Write};

// From a fresh line and memory: the lines in the buffer that are complete are answered, as many as the output has room for,
// and the answers written; where none is left, more is read.
pub(crate) fn serve_input<R: Read, W: Write>(reader: &mut R, writer: &mut W) -> Ended
    ensures { EndsSo (streams (R.remaining reader.old) (W.contents writer.old)) (streams (R.remaining reader.new) (W.contents writer.new)) result }
{
    let mut input = large_buffer();
    let mut out = large_buffer();
    let mut tallies = [0i64; tallies::LENGTH];
    let mut line = Line::fresh();
    let mut settings = [Settings::blank(); RECORDS as usize];
    let mut left = Left::none();
    let mut turns = 0;
    for _ in 0..u64::MAX {
        turns += 1;
        let start = left.start;
        let end = left.end;
        let block = serve_block(
            &mut line,
            &mut settings,
            &mut tallies,
            &input[start..end],
            &mut out,
        );
        let taken = write_out(writer, &out[..block.at]);
        if !taken.all() {
            return Ended::Output(taken);
        }
        left = left.past(block.start);
        // With too little room for the next answer lines may be left that are complete.
        if no_room(out.len(), block.at) {
            continue;
        }
        if left.is_last() {
            return Ended::Input(left);
        }
        left = left.refilled(reader, &mut input);
    }
    Ended::Turns(turns)
}
