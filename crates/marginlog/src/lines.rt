// The line that a call prints.
ghost use Rattle.std.specs.Prelude.{◌≡◌};
ghost use Rattle.print.specs.Reply.{reply_room};
ghost use Rattle.print.specs.Written.{length_written, buffer_after};
ghost use Rattle.marginlog.specs.Lines.{outcomes_text, Printed};
ghost use Rattle.marginlog.specs.Views.{NamePut};

use calls::refuse;
use possible::{Refusal, count_fits, possible_outcomes};
use print::{Lines, REPLY_ROOM};
use settings::{Settings, is_code};

// The length of `outcomes=`: the first name stands there.
const START: usize = 9;

// The name of an outcome, if it is possible, behind a comma unless it is the first; where there may be too little room nothing is
// promised.
fn put_name(lines: &mut Lines, possible: bool, name: &[u8])
    ensures { NamePut lines.old possible name.now lines.new }
{
    if !possible {
        return;
    }
    if lines.at == START {
        lines.text(name);
        return;
    }
    lines.text(b",");
    lines.text(name);
}

// The names of the outcomes in a mask; a buffer of less than a reply's room is left as it is, and the answer is 0.
fn put_outcomes(out: &mut [u8], mask: u64) -> usize
    ensures { (result ≡ length_written reply_room (outcomes_text mask) out.old) × (out.new ≡ buffer_after reply_room (outcomes_text mask) out.old) }
{
    if out.len() < REPLY_ROOM {
        return 0;
    }
    let mut lines = Lines { out, at: 0 };
    lines.text(b"outcomes=");
    put_name(&mut lines, mask / 2 % 2 == 1, b"lolo");
    put_name(&mut lines, mask / 4 % 2 == 1, b"lo");
    put_name(&mut lines, mask / 8 % 2 == 1, b"ok");
    put_name(&mut lines, mask / 16 % 2 == 1, b"hi");
    put_name(&mut lines, mask / 32 % 2 == 1, b"hihi");
    put_name(&mut lines, mask / 512 % 2 == 1, b"dismissed");
    lines.text(b"\n");
    lines.at
}

// What a call with these samples, this margin, and this code with its settings prints, at the front of `out`, and its length:
// the possible outcomes, or the line of its refusal. A code out of range is refused 2, behind 15. An `out` of less than a
// reply's room is left as it is, and the answer is 0.
pub fn call_line(samples: &[i64], e: u64, code: u64, s: Settings, out: &mut [u8]) -> usize
    ensures { Printed samples.now e code s out.old out.new result }
{
    if count_fits(samples.len()) & !is_code(code) {
        return refuse(out, Refusal::Value.number());
    }
    match possible_outcomes(samples, e, s) {
        Err(refusal) => refuse(out, refusal.number()),
        Ok(mask) => put_outcomes(out, mask),
    }
}
