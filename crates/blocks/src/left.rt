// What is left of the input in a buffer.
ghost use Rattle.std.specs.Prelude.{◌<◌, ◌≤◌, ◌≡◌, length, take, drop};
ghost use Rattle.blocks.specs.Left.{kept_bytes, standing, none_left, last_of, past_of, answer, bytes_left, ReadBehind, Filled, Refilled};
ghost use Rattle.blocks.specs.Known.{Drawn};

use std::io::{Read, Result};
use text::LONGEST_LINE;

// A line over the longest is refused whatever follows: so much of it stands for all of it.
const KEPT: usize = LONGEST_LINE + 1;

// How the input stands: more may come; it has ended; or a read has failed.
#[derive(Clone, Copy, PartialEq, Eq)]
enum Standing {
    More,
    End,
    Failed,
}

// The bytes of a buffer from `start` to `end`, and how the input stands behind them.
#[derive(Clone, Copy)]
pub struct Left {
    pub start: usize,
    pub end: usize,
    over: Standing,
}

// How the input stands when `read` has answered this.
fn standing_at(answered: Result<usize>) -> Standing
    ensures { result ≡ standing (answer answered) }
{
    match answered {
        Ok(0) => Standing::End,
        Ok(_) => Standing::More,
        Err(_) => Standing::Failed,
    }
}

// Moves what is kept of the bytes from `start` to `end` to the front, and answers how many they are.
fn keep(input: &mut [u8], start: usize, end: usize) -> usize
    ensures { (result ≤ kept_bytes) × (length input.new ≡ length input.old) × (take result input.new ≡ take kept_bytes (drop start (take end input.old))) }
{
    let last = end.min(input.len());
    let first = start.min(last);
    let n = (last - first).min(KEPT);
    input.copy_within(first..first + n, 0);
    n
}

// Reads more behind the bytes that are held.
fn read_behind<R: Read>(reader: &mut R, input: &mut [u8], held: usize) -> Left
    requires { held ≤ length input.old }
    ensures behind { ReadBehind input.old held result input.new }
    ensures drawn { held < length input.old → Drawn (R.remaining reader.old) (R.remaining reader.new) (take held input.old) result input.new }
{
    let answered = reader.read(&mut input[held..]);
    let n = answered.unwrap_or(0);
    Left {
        start: 0,
        end: held + n,
        over: standing_at(answered),
    }
}

// Reads more behind the bytes that are held; at the end of the input an LF ends them, if there are any.
fn read_more<R: Read>(reader: &mut R, input: &mut [u8], held: usize) -> Left
    requires { held < length input.old }
    ensures filled { Filled (take held input.old) result input.new }
    ensures input_len_unchanged { length input.new ≡ length input.old }
    ensures drawn { Drawn (R.remaining reader.old) (R.remaining reader.new) (take held input.old) result input.new }
{
    let read = read_behind(reader, &mut *input, held);
    if !read.is_last() {
        return read;
    }
    if held == 0 {
        return read;
    }
    input[held] = b'\n';
    Left {
        start: 0,
        end: held + 1,
        over: read.over,
    }
}

impl Left {
    // Nothing has been read yet.
    pub fn none() -> Left
        ensures { result ≡ none_left }
    {
        Left {
            start: 0,
            end: 0,
            over: Standing::More,
        }
    }

    // No more will come.
    pub fn is_last(self) -> bool
        ensures { result ≡ last_of self }
    {
        self.over != Standing::More
    }

    // Without the first n bytes, or without all of them where they are fewer.
    pub fn past(self, n: usize) -> Left
        ensures { result ≡ past_of self n }
    {
        Left {
            start: self.start.saturating_add(n).min(self.end),
            end: self.end,
            over: self.over,
        }
    }

    // What is kept of the bytes moves to the front, and more is read behind it. A buffer with no room for more than what is
    // kept takes no read, and nothing changes.
    pub fn refilled<R: Read>(self, reader: &mut R, input: &mut [u8]) -> Left
        ensures refilled { Refilled self input.old result input.new }
        ensures drawn { kept_bytes < length input.old → Drawn (R.remaining reader.old) (R.remaining reader.new) (take kept_bytes (bytes_left self input.old)) result input.new }
    {
        if input.len() <= KEPT {
            return self;
        }
        let held = keep(&mut *input, self.start, self.end);
        read_more(reader, &mut *input, held)
    }
}
