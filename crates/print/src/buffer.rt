// Text at a place of a lent buffer. Each function answers the place behind what it wrote.
ghost use Rattle.std.specs.Prelude.{◌≡◌, ◌+◌, ◌≤◌, ◌<◌, length};
ghost use Rattle.decimal.specs.Bytes.{digit_byte};
ghost use Rattle.decimal.specs.Number.{decimal};
ghost use Rattle.print.specs.Steps.{Wrote};

pub(crate) fn put(out: &mut [u8], at: usize, text: &[u8]) -> usize
    requires { at + length text.now ≤ length out.old }
    ensures { Wrote out.old at text.now (length text.now) out.new result }
{
    let end = at + text.len();
    out[at..end].copy_from_slice(text);
    end
}

// n in decimal: how many digits there are is found first, so that each is stored at its place, the last one first.
// The loop goes by the digits, from the last one on, and ends where m has one: no iterator says that more plainly.
#[tactic(auto, using(decimal::proofs::Digits::length_digit, decimal::proofs::Digits::length_more))]
pub(crate) fn put_decimal(out: &mut [u8], at: usize, n: u64) -> usize
    requires { at + length (decimal n) ≤ length out.old }
    ensures { Wrote out.old at (decimal n) (length (decimal n)) out.new result }
{
    let end = at + width(n);
    let mut place = end;
    let mut m = n;
    while 10 <= m {
        place -= 1;
        out[place] = digit(m % 10);
        m /= 10;
    }
    out[at] = digit(m);
    end
}

// How many digits n has. Most have one, which is one test here: by `ilog10` a reply took a third more instructions.
#[tactic(auto, using(decimal::proofs::Digits::length_digit, decimal::proofs::Digits::length_more, decimal::proofs::Digits::at_most_20))]
fn width(n: u64) -> usize
    ensures { result ≡ length (decimal n) }
{
    let mut digits = 1;
    let mut m = n;
    while 10 <= m {
        m /= 10;
        digits += 1;
    }
    digits
}

fn digit(n: u64) -> u8
    requires { n < 10 }
    ensures { result ≡ digit_byte n }
{
    b'0' + (n as u8)
}
