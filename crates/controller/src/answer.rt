// Answers at the front of a lent buffer: each gives its length.
ghost use Rattle.std.specs.Prelude.{◌≤◌, ◌≡◌, Some, length};
ghost use Rattle.print.specs.Reply.{reply_text};
ghost use Rattle.print.specs.Written.{put_text};
ghost use Rattle.controller.specs.Answer.{answer_room, no_room, refused_by, report_answer, text_refusal, refused_answer};

use event::Refused;
use print::{reply_line, sheet_lines};
use refusal::Refusal;
use sheet::Sheet;

// No answer is longer, in bytes.
pub const ANSWER_ROOM: usize = print::SHEET_ROOM;

// Behind the first `at` bytes of a buffer of so many there may be too little room for an answer.
pub fn no_room(length: usize, at: usize) -> bool
    ensures { result ≡ no_room length at }
{
    if length < ANSWER_ROOM {
        return true;
    }
    let last = length - ANSWER_ROOM;
    last < at
}

// The refusal of a report, or of text that is none, by its row of the table.
fn put_refusal(out: &mut [u8], r: Refusal) -> usize
    requires { answer_room ≤ length out.old }
    ensures length { result ≡ length (reply_text (refused_by r)) }
    ensures output { out.new ≡ put_text (reply_text (refused_by r)) out.old }
{
    let refused = Refused {
        number: r.number(),
        input: 0,
    };
    reply_line(out, Err(refused))
}

pub(crate) fn put_report(out: &mut [u8], code: u64, r: Result<Sheet, Refusal>) -> usize
    requires { answer_room ≤ length out.old }
    ensures length { result ≡ length (report_answer code r) }
    ensures output { out.new ≡ put_text (report_answer code r) out.old }
{
    match r {
        Ok(sheet) => sheet_lines(out, code, sheet),
        Err(refusal) => put_refusal(out, refusal),
    }
}

fn refusal_of_text(count: usize, tallies: &[i64]) -> Refusal
    ensures { Some result ≡ text_refusal count tallies.now }
{
    if refusal::lengths_wrong(count as u64, tallies) {
        Refusal::Memory
    } else {
        Refusal::Form
    }
}

// The refusal of text that is no event and no report.
pub(crate) fn put_refused(out: &mut [u8], count: usize, tallies: &[i64]) -> usize
    requires { answer_room ≤ length out.old }
    ensures length { result ≡ length (refused_answer count tallies.now) }
    ensures output { out.new ≡ put_text (refused_answer count tallies.now) out.old }
{
    put_refusal(out, refusal_of_text(count, tallies))
}
