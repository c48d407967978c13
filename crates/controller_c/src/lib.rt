// The controller for C: a static library of one function on bytes.
//
//     ptrdiff_t checkweigher_answers(const uint8_t *input, size_t input_length, uint8_t *out, size_t out_length);
//
// It reads lines of text, each up to LF or the end, writes to `out` what the program `checkweigher` prints over them, and
// hands back how many bytes these are. Where `out` has too little room for an answer it hands back -1, and what `out` holds
// is of no use; with 2,048 bytes more than are printed there is always room.
//
// Nothing is kept between calls: each begins with a fresh line and memory, so the lines of a day go into one call. Line and
// memory stand on the stack, of which a call takes some 50,000 bytes. Nothing is allocated, and no system is called; the
// caller's program has `memcpy` and `memset`.
//
// C has to see to this: no pointer is null, not even for a length of 0; each length is that of its memory; the two memories
// do not overlap.
#![tactic(auto)]

ghost use Rattle.std.specs.Prelude.{◌≢◌, ◌≤◌, ◌+◌, length, IfSome, IsSome};
ghost use Rattle.controller.specs.Answer.{answer_room};
ghost use Rattle.controller.specs.Input.{program};
ghost use Rattle.controller_c.specs.Answers.{no_room, Printed, Answered};

use controller::{Line, Settings, serve};
use sessions::serve_block;

// What `checkweigher_answers` says where there is too little room.
const NO_ROOM: isize = -1;

// The answers to all lines of the input, from a fresh line and memory: where they end. The last line may lack its LF.
fn answer_all(input: &[u8], out: &mut [u8]) -> Option<usize>
    ensures printed { IfSome result (Printed input.now out.new) }
    ensures room { length (program input.now) + answer_room ≤ length out.old → IsSome result }
{
    let mut line = Line::fresh();
    let mut records = [Settings::blank(); 100];
    let mut tallies = [0i64; 3400];
    let block = serve_block(&mut line, &mut records, &mut tallies, input, &mut *out);
    if input.len() <= block.start {
        return Some(block.at);
    }
    let last = &input[block.start..];
    serve(&mut line, &mut records, &mut tallies, last, out, block.at)
}

#[unsafe(no_mangle)]
pub extern "C" fn checkweigher_answers(input: &[u8], out: &mut [u8]) -> isize
    ensures printed { Answered input.now out.new result }
    ensures room { length (program input.now) + answer_room ≤ length out.old → result ≢ no_room }
{
    match answer_all(input, out) {
        Some(length) => length as isize,
        None => NO_ROOM,
    }
}
