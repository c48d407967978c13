// The input to the output, until the input ends.
ghost use Rattle.blocks.specs.Known.{streams};
ghost use Rattle.calls.specs.Traces.{EndsSo};
ghost use Rattle.margin.specs.Session.{margin_calls};

use crate::memory::Session;
use blocks::Ended;
use print::REPLY_ROOM;
use std::io::{Read, Write};

// Each line is served in its turn, and what it prints written; the end ends the last call. The program's promise stands on this
// function of its own.
pub(crate) fn serve_input<R: Read, W: Write>(reader: &mut R, writer: &mut W) -> Ended
    ensures { EndsSo margin_calls (streams (R.remaining reader.old) (W.contents writer.old)) (streams (R.remaining reader.new) (W.contents writer.new)) result }
{
    calls::serve_input_with_room::<REPLY_ROOM, Session, R, W>(reader, writer)
}
