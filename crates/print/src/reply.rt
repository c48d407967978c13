// The line of a reply.
ghost use Rattle.std.specs.Prelude.{◌≡◌, ◌++◌, ◌+◌, ◌≤◌, length};
ghost use Rattle.decimal.specs.Bytes.{bytes};
ghost use Rattle.print.specs.Text.{ahead, joined};
ghost use Rattle.print.specs.Reply.{error_text, shown, did, done_text, refused_text, reply_text, reply_room};
ghost use Rattle.print.specs.Written.{buffer_after, length_written};
ghost use Rattle.print.specs.Steps.{Writes, value_room};

use crate::REPLY_ROOM;
use crate::lines::Lines;
use event::{Done, Refused, Reply};

// The reply as a line at the front of `out`, and its length. A buffer of less than its room is left as it is, and the answer
// is 0.
pub fn reply_line(out: &mut [u8], r: Reply) -> usize
    ensures value { result ≡ length_written reply_room (reply_text r) out.old }
    ensures out_after { out.new ≡ buffer_after reply_room (reply_text r) out.old }
{
    if out.len() < REPLY_ROOM {
        return 0;
    }
    let mut lines = Lines { out: out, at: 0 };
    put_reply(&mut lines, r);
    lines.at
}

fn put_reply(lines: &mut Lines, r: Reply)
    requires { lines.old.at + 252 ≤ length lines.old.out.now }
    ensures { Writes lines.old (reply_text r) 252 lines.new }
{
    match r {
        Ok(done) => put_done(lines, done),
        Err(refused) => put_refused(lines, refused),
    }
}

fn put_refused(lines: &mut Lines, r: Refused)
    requires { lines.old.at + 56 ≤ length lines.old.out.now }
    ensures { Writes lines.old (refused_text r.number r.input) 56 lines.new }
{
    lines.put_count(b"refused=", r.number);
    lines.put_count(b" input=", r.input);
    lines.end_line();
}

fn put_done(lines: &mut Lines, d: Done)
    requires { lines.old.at + 252 ≤ length lines.old.out.now }
    ensures { Writes lines.old (done_text d) 252 lines.new }
{
    put_shown(lines, d);
    put_did(lines, d);
    lines.end_line();
}

fn put_shown(lines: &mut Lines, d: Done)
    requires { lines.old.at + 111 ≤ length lines.old.out.now }
    ensures { Writes lines.old (joined (bytes " ") (shown d)) 111 lines.new }
{
    lines.put_count(b"status=", d.status);
    lines.put_count(b" busy=", d.busy);
    lines.put_count(b" conveyor=", d.conveyor);
    lines.put_count(b" sorter=", d.sorter);
}

fn put_did(lines: &mut Lines, d: Done)
    requires { lines.old.at + 140 ≤ length lines.old.out.now }
    ensures { Writes lines.old (ahead (bytes " ") (did d)) 140 lines.new }
{
    lines.put_count(b" detected=", d.detected);
    lines.put_count(b" outcome=", d.outcome);
    lines.put_number(b" net=", d.net);
    lines.put_count(b" tallied=", d.tallied);
    put_error(lines, b" error=", d.error);
}

fn put_error(lines: &mut Lines, key: &[u8], error: u64)
    requires { lines.old.at + length key.now + value_room ≤ length lines.old.out.now }
    ensures { Writes lines.old (key.now ++ error_text error) (length key.now + value_room) lines.new }
{
    if error == Done::NO_ERROR {
        lines.put_none(key);
    } else {
        lines.put_count(key, error);
    }
}
