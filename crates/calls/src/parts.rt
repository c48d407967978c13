// What a program keeps of a call that is being read, and how it refuses.
ghost use Rattle.std.specs.Prelude.{◌≡◌};
ghost use Rattle.print.specs.Reply.{refused_text, reply_room};
ghost use Rattle.print.specs.Written.{length_written, buffer_after};
ghost use Rattle.calls.specs.Kept.{Noted};

use event::Refused;
use print::reply_line;

// One more joins the list of the first `count` elements, if it has a place; the answer is how many there are then. Nothing is
// written where it has none.
pub fn note<T: Copy>(list: &mut [T], count: usize, x: T) -> usize
    ensures { Noted list.old count x list.new result }
{
    if count < list.len() {
        list[count] = x;
        return count + 1;
    }
    count
}

// The line of a refusal at the front of `out`, and its length. A buffer of less than a reply's room is left as it is, and the
// answer is 0.
pub fn refuse(out: &mut [u8], number: u64) -> usize
    ensures { (result ≡ length_written reply_room (refused_text number 0) out.old) × (out.new ≡ buffer_after reply_room (refused_text number 0) out.old) }
{
    reply_line(out, Err(Refused { number, input: 0 }))
}
