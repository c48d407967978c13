// The lines that a call prints.
ghost use Rattle.std.specs.Prelude.{◌≡◌, ◌++◌, ◌+◌, ◌*◌, ◌/◌, ◌≤◌, length, take};
ghost use Rattle.print.specs.Reply.{refused_text};
ghost use Rattle.print.specs.Steps.{Writes};
ghost use Rattle.print.specs.Written.{length_written, buffer_after};
ghost use Rattle.pairing.specs.Answer.{longest_list};
ghost use Rattle.exitlog.specs.Lines.{pair_text, counts_text, pair_room, counts_room, call_room, Printed};
ghost use Rattle.exitlog.specs.Views.{numbers_text};

use calls::refuse;
use pairing::{Counts, LONGEST_LIST, pair_exits};
use print::Lines;

// No line of a pair is longer, and no line of the counts, in bytes.
const PAIR_ROOM: usize = 57;

const COUNTS_ROOM: usize = 83;

// The room that the lines of a call are written to, in bytes.
pub const CALL_ROOM: usize = PAIR_ROOM * LONGEST_LIST + COUNTS_ROOM;

fn put_pair(lines: &mut Lines, verdict: u64, signal: u64)
    requires { lines.old.at + pair_room ≤ length lines.old.out.now }
    ensures { Writes lines.old (pair_text verdict signal) pair_room lines.new }
{
    lines.count(b"verdict=", verdict);
    lines.count(b" signal=", signal);
    lines.text(b"\n");
}

fn put_counts(lines: &mut Lines, c: Counts)
    requires { lines.old.at + counts_room ≤ length lines.old.out.now }
    ensures { Writes lines.old (counts_text c) counts_room lines.new }
{
    lines.count(b"pairs=", c.pairs);
    lines.count(b" missing=", c.missing);
    lines.count(b" extra=", c.extra);
    lines.text(b"\n");
}

// The lines of pairs, each a verdict tick and then its signal tick.
fn put_pairs(lines: &mut Lines, pairs: &[u64])
    requires { lines.old.at + pair_room * (length pairs.now / 2) ≤ length lines.old.out.now }
    ensures { Writes lines.old (numbers_text pairs.now) (pair_room * (length pairs.now / 2)) lines.new }
{
    for i in 0..pairs.len() / 2 {
        put_pair(lines, pairs[2 * i], pairs[2 * i + 1]);
    }
}

// The line of a refusal; a buffer of less than a call's room is left as it is, and the answer is 0.
fn put_refused(out: &mut [u8], number: u64) -> usize
    ensures { (result ≡ length_written call_room (refused_text number 0) out.old) × (out.new ≡ buffer_after call_room (refused_text number 0) out.old) }
{
    if out.len() < CALL_ROOM {
        return 0;
    }
    refuse(out, number)
}

// The lines of the pairs, and then the counts; the same of a buffer that is too short.
fn put_paired(out: &mut [u8], pairs: &[u64], c: Counts) -> usize
    requires { (2 * c.pairs ≤ length pairs.now) × (c.pairs ≤ longest_list) }
    ensures { (result ≡ length_written call_room (numbers_text (take (2 * c.pairs) pairs.now) ++ counts_text c) out.old) × (out.new ≡ buffer_after call_room (numbers_text (take (2 * c.pairs) pairs.now) ++ counts_text c) out.old) }
{
    if out.len() < CALL_ROOM {
        return 0;
    }
    let mut lines = Lines { out, at: 0 };
    let numbers = 2 * c.pairs as usize;
    put_pairs(&mut lines, &pairs[..numbers]);
    put_counts(&mut lines, c);
    lines.at
}

// What a call with these lists and this window prints, at the front of `out`, and its length: each pair, then the counts, or
// the line of its refusal. `pairs` is the buffer that the call is lent. An `out` of less than CALL_ROOM is left as it is, and
// the answer is 0.
pub fn call_lines(
    verdicts: &[u64],
    signals: &[u64],
    a: u64,
    b: u64,
    pairs: &mut [u64],
    out: &mut [u8],
) -> usize
    ensures { Printed verdicts.now signals.now a b (length pairs.old) out.old out.new result }
{
    match pair_exits(verdicts, signals, a, b, pairs) {
        Err(refusal) => put_refused(out, refusal.number()),
        Ok(c) => put_paired(out, pairs, c),
    }
}
