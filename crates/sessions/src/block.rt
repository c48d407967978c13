// The lines of a block of input, each answered in its turn.
ghost use Rattle.std.specs.Prelude.{◌≡◌};
ghost use Rattle.line.specs.State.{state};
ghost use Rattle.sessions.specs.Sessions.{answering};

use blocks::line_end;
use controller::serve;
use line::Line;
use settings::Settings;

// How far a block is answered.
#[derive(Clone, Copy)]
pub struct Block {
    // where what is left of the block begins, at most its length
    pub start: usize,
    // where the answers end, at most the output's length
    pub at: usize,
}

// The complete lines of a block, as many as have room for their answers.
// The loop goes by the ends of lines, which it finds as it goes: no iterator says that more plainly.
pub fn serve_block(
    line: &mut Line,
    records: &mut [Settings],
    tallies: &mut [i64],
    input: &[u8],
    out: &mut [u8],
) -> Block
    ensures answer { result ≡ (answering (state line.old records.old tallies.old) input.now out.old).block }
    ensures line { line.new ≡ (answering (state line.old records.old tallies.old) input.now out.old).state.line }
    ensures settings { records.new ≡ (answering (state line.old records.old tallies.old) input.now out.old).state.settings }
    ensures memory { tallies.new ≡ (answering (state line.old records.old tallies.old) input.now out.old).state.tallies }
    ensures output { out.new ≡ (answering (state line.old records.old tallies.old) input.now out.old).out }
{
    let mut start = 0;
    let mut at = 0;
    loop {
        let end = line_end(input, start);
        if input.len() <= end {
            return Block { start, at };
        }
        let Some(next) = serve(line, records, tallies, &input[start..end], out, at) else {
            return Block { start, at };
        };
        start = end + 1;
        at = next;
    }
}
