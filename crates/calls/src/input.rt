// The input to the output, until the input ends.
ghost use Rattle.std.specs.Prelude.{ℕ, ◌^◌, ◌≡◌, ◌<◌, ◌≤◌, List, [], length, take};
ghost use Rattle.print.specs.Reply.{reply_room};
ghost use Rattle.blocks.specs.Left.{kept_bytes};
ghost use Rattle.blocks.specs.Known.{streams};
ghost use Rattle.calls.specs.Service.{Service, after_line, SaysLine};
ghost use Rattle.calls.specs.Traces.{Answers, EndsSo, Finished};

use crate::parts::refuse;
use blocks::{Ended, Left, filled, large_buffer, line_end, write_out};
use refusal::Refusal;
use std::io::{Read, Write};

// The calls of a program, as it keeps them from line to line. What a call prints has room in ROOM bytes.
pub trait CallsWithRoom<const ROOM: usize> {
    // what the program's lines say, leave and print
    ghost service: { Service };

    // what a value keeps
    ghost state: { Self → service.State };

    // No call has begun.
    fn fresh() -> Self
        ensures { state result ≡ service.start };

    // A line of text: what it prints goes to the front of `out`, and its length is the answer; none where it says nothing, or
    // what has no place, and then all is left as it is.
    fn line(&mut self, line: &[u8], out: &mut [u8; ROOM]) -> Option<usize>
        ensures room { length out.new ≡ ROOM }
        ensures answers { Answers service (state self.old) (service.reads line.now) (state self.new) out.new result };

    // What ends the last call, in the same way.
    fn close(&mut self, out: &mut [u8; ROOM]) -> usize
        ensures room { length out.new ≡ ROOM }
        ensures closes { (result ≤ length out.new) × service.Closes (state self.old) (take result out.new) };

    // a reply has room there, and so many bytes are no more than a memory can have
    ghost wide: { (reply_room ≤ ROOM) × (ROOM < 2 ^ 63) };

    // a line reads as what is kept of it, and before the first call the end prints nothing
    ghost cut: { (t : List ℕ) → service.reads (take kept_bytes t) ≡ service.reads t };

    ghost quiet: { (text : List ℕ) → service.Closes service.start text → text ≡ [] };
}

// A line of text: what it prints goes to the front of `out`, and its length is the answer. One of no form or place is refused.
fn serve_line<const ROOM: usize, C: CallsWithRoom<ROOM>>(
    calls: &mut C,
    line: &[u8],
    out: &mut [u8; ROOM],
) -> usize
    ensures within { (length out.new ≡ ROOM) × (result ≤ ROOM) }
    ensures after { C.state calls.new ≡ after_line C.service (C.state calls.old) (C.service.reads line.now) }
    ensures says { SaysLine C.service (C.state calls.old) (C.service.reads line.now) (take result out.new) }
{
    match calls.line(line, out) {
        Some(at) => at,
        None => refuse(out, Refusal::Form.number()),
    }
}

// The end of the input ends the last call.
fn finish<const ROOM: usize, C: CallsWithRoom<ROOM>, W: Write>(
    calls: &mut C,
    writer: &mut W,
    out: &mut [u8; ROOM],
    left: Left,
) -> Ended
    ensures { Finished C.service (C.state calls.old) left (W.contents writer.old) (W.contents writer.new) result }
{
    let end = calls.close(out);
    let taken = write_out(writer, &out[..end]);
    if taken.all() {
        return Ended::Input(left);
    }
    Ended::Output(taken)
}

// Each complete line in the buffer is served, and what it prints written; where none is left, more is read.
pub fn serve_input_with_room<const ROOM: usize, C: CallsWithRoom<ROOM> + Drop, R: Read, W: Write>(
    reader: &mut R,
    writer: &mut W,
) -> Ended
    ensures { EndsSo C.service (streams (R.remaining reader.old) (W.contents writer.old)) (streams (R.remaining reader.new) (W.contents writer.new)) result }
{
    let mut input = large_buffer();
    let mut out: [u8; ROOM] = filled(0);
    let mut calls = C::fresh();
    let mut left = Left::none();
    let mut turns = 0;
    for _ in 0..u64::MAX {
        turns += 1;
        let start = left.start;
        let last = left.end;
        let end = line_end(&input[..last], start);
        if last <= end {
            if left.is_last() {
                return finish(&mut calls, writer, &mut out, left);
            }
            left = left.refilled(reader, &mut input);
            continue;
        }
        let at = serve_line(&mut calls, &input[start..end], &mut out);
        let taken = write_out(writer, &out[..at]);
        if !taken.all() {
            return Ended::Output(taken);
        }
        left = left.past(end - start + 1);
    }
    Ended::Turns(turns)
}
