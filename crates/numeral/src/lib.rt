// Numbers at a place of a line, held at a limit that is out of every field's range.
#![tactic(auto)]

ghost use Rattle.std.specs.Prelude.{◌≡◌, ◌≤◌, drop, Some};
ghost use Rattle.numeral.specs.Number.{signed, digits, positive, number_head, four_head, limit, unsigned_of};
ghost use Rattle.numeral.specs.Found.{byte_is, digit_head, held_head, found};

const LIMIT: u64 = 1000000000;

// A value within the limit, and the place behind it.
#[derive(Clone, Copy)]
pub struct Found {
    pub value: i64,
    pub next: usize,
}

pub fn byte_at(line: &[u8], at: usize, c: u8) -> bool
    ensures { result ≡ byte_is c (drop at line.now) }
{
    line.get(at) == Some(&c)
}

// The value of the digit at a place.
pub fn digit_at(line: &[u8], at: usize) -> Option<u64>
    ensures { result ≡ digit_head (drop at line.now) }
{
    match line.get(at) {
        Some(&b) if b'0' <= b && b <= b'9' => Some(u64::from(b - b'0')),
        _ => None,
    }
}

fn with_sign(below: bool, n: u64) -> i64
    requires { n ≤ limit }
    ensures { result ≡ signed below n }
{
    let x = n as i64;
    if below { -x } else { x }
}

// The digits at a place, behind those of `start`. A walk with a place, and not a `for`, since the place where it ends is told.
fn read_digits(line: &[u8], at: usize, below: bool, start: u64) -> Found
    requires { start ≤ limit }
    ensures { found line.now (Some result) ≡ held_head (digits below start (drop at line.now)) }
{
    let mut size = start;
    let mut next = at;
    while let Some(digit) = digit_at(line, next) {
        size = (size * 10 + digit).min(LIMIT);
        next += 1;
    }
    Found {
        value: with_sign(below, size),
        next,
    }
}

// Digits of which the first is 1 to 9.
fn read_positive(line: &[u8], at: usize, below: bool) -> Option<Found>
    ensures { found line.now result ≡ held_head (positive below (drop at line.now)) }
{
    let first = digit_at(line, at)?;
    if first == 0 {
        return None;
    }
    Some(read_digits(line, at + 1, below, first))
}

pub fn read_number(line: &[u8], at: usize) -> Option<Found>
    ensures { found line.now result ≡ held_head (number_head (drop at line.now)) }
{
    if byte_at(line, at, b'0') {
        return Some(Found {
            value: 0,
            next: at + 1,
        });
    }
    if byte_at(line, at, b'-') {
        return read_positive(line, at + 1, true);
    }
    read_positive(line, at, false)
}

#[tactic(auto, using(crate::proofs::Heads::four_none_2, crate::proofs::Heads::four_none_3, crate::proofs::Heads::four_none_4, crate::proofs::Heads::four_read))]
pub fn read_four(line: &[u8], at: usize) -> Option<Found>
    ensures { found line.now result ≡ held_head (four_head (drop at line.now)) }
{
    let a = digit_at(line, at)?;
    let b = digit_at(line, at + 1)?;
    let c = digit_at(line, at + 2)?;
    let d = digit_at(line, at + 3)?;
    let n = a * 1000 + b * 100 + c * 10 + d;
    Some(Found {
        value: n as i64,
        next: at + 4,
    })
}

// A negative value is too small for a field that is never negative, as the limit is too large.
pub fn unsigned_of(value: i64) -> u64
    ensures { result ≡ unsigned_of value }
{
    u64::try_from(value).unwrap_or(LIMIT)
}
