// The input to the output, for a program that says no room of its own for what a call prints.
ghost use Rattle.std.proofs.Common.{rules};
ghost use Rattle.std.specs.Prelude.{ℕ, ◌≡◌, ◌≤◌, List, [], length, take};
ghost use Rattle.blocks.specs.Left.{kept_bytes};
ghost use Rattle.blocks.specs.Known.{streams};
ghost use Rattle.calls.specs.Service.{Service};
ghost use Rattle.calls.specs.Traces.{Answers, EndsSo};

use crate::input::{CallsWithRoom, serve_input_with_room};
use blocks::Ended;
use std::io::{Read, Write};
use std::marker::Model;

// What a call of such a program prints has room in so many bytes.
pub const OUTPUT_ROOM: usize = 262_144;

// The calls of such a program, as it keeps them from line to line.
pub trait Calls {
    // what the program's lines say, leave and print
    ghost service: { Service };

    // what a value keeps, where it is one that the program makes
    ghost state: { Self → service.State };

    // what holds of such a value; no method asks for it, and the clauses of `line` and `close` are of values of which it holds
    ghost sound: { Self → Type 0 };

    // No call has begun.
    fn fresh() -> Self
        ensures { sound result × (state result ≡ service.start) };

    // A line of text: what it prints goes to the front of `out`, and its length is the answer; none where it says nothing, or
    // what has no place, and then all is left as it is.
    fn line(&mut self, line: &[u8], out: &mut [u8; OUTPUT_ROOM]) -> Option<usize>
        ensures kept { sound self.old → sound self.new }
        ensures answers { sound self.old → Answers service (state self.old) (service.reads line.now) (state self.new) out.new result };

    // What ends the last call, in the same way.
    fn close(&mut self, out: &mut [u8; OUTPUT_ROOM]) -> usize
        ensures kept { sound self.old → sound self.new }
        ensures closes { sound self.old → (result ≤ length out.new) × service.Closes (state self.old) (take result out.new) };

    // a line reads as what is kept of it, and before the first call the end prints nothing
    ghost cut: { (t : List ℕ) → service.reads (take kept_bytes t) ≡ service.reads t };

    ghost quiet: { (text : List ℕ) → service.Closes service.start text → text ≡ [] };
}

// Such calls that are sound, as calls whose room is OUTPUT_ROOM.
#[derive(Drop)]
struct Fixed<C: Calls> {
    calls: C,
}

impl<C: Calls> Model for Fixed<C> {
    ghost Value = { C };

    ghost view = { λ f. f.calls };

    ghost invariant = { λ f. C.sound f.calls };
}

impl<C: Calls> CallsWithRoom<OUTPUT_ROOM> for Fixed<C> {
    ghost service = { C.service };

    ghost state = { C.state };

    fn fresh() -> Fixed<C> {
        Fixed { calls: C::fresh() }
    }

    fn line(&mut self, line: &[u8], out: &mut [u8; OUTPUT_ROOM]) -> Option<usize> {
        self.calls.line(line, out)
    }

    fn close(&mut self, out: &mut [u8; OUTPUT_ROOM]) -> usize {
        self.calls.close(out)
    }

    ghost wide = { Prim.search rules };

    ghost cut = { C.cut };

    ghost quiet = { C.quiet };
}

// Each complete line in the buffer is served, and what it prints written; where none is left, more is read.
pub fn serve_input<C: Calls + Drop, R: Read, W: Write>(reader: &mut R, writer: &mut W) -> Ended
    ensures { EndsSo C.service (streams (R.remaining reader.old) (W.contents writer.old)) (streams (R.remaining reader.new) (W.contents writer.new)) result }
{
    serve_input_with_room::<OUTPUT_ROOM, Fixed<C>, R, W>(reader, writer)
}
