// The lent memory of the tallies: a hundred parts of 34 numbers, a tally's thirteen and the 21 class counts.
#![tactic(auto)]

ghost use Rattle.std.specs.Prelude.{◌≡◌, true, ◌&&◌, map, ◌<◌, ◌≤◌, ◌^◌, eqb, pos, nat_abs, length, get_or};
ghost use Rattle.std.specs.Int.Signed.{le_z};
ghost use Rattle.lists.specs.Each.{all_of};
ghost use Rattle.lists.specs.Counts.{add_up};
ghost use Rattle.tally.specs.Tally.{tally_limit, total};
ghost use Rattle.part.specs.Class.{class_count};
ghost use Rattle.part.specs.Part.{part_fit};
ghost use Rattle.tallies.specs.Memory.{part_length, tally_length, numbers, part_numbers, tally_of, part_of, unsigned, numbers_fit, fit_at, read_at, written, zeros, start_of, small_count};

use part::{CLASSES, Part};
use settings::LAST_CODE;
use tally::{Counts, Tally};
use weight::size;

// The numbers of a part, and of all parts, one for each code.
pub const PART: usize = 34;

pub const LENGTH: usize = 3400;

// The numbers of a tally, in front of the class counts.
const TALLY: usize = 13;

// No class of a fit part counts more: where none does, their sum does not overflow.
const MOST: i64 = 999_999;

// Code's part is fit, in a memory of the right length.
pub fn fit_at(tallies: &[i64], code: u64) -> bool
    ensures { result ≡ fit_at tallies.now code }
{
    let Some(at) = start_of(tallies, code) else {
        return false;
    };
    part_fit(&tallies[at..at + PART])
}

// Code's part; the empty one where there is no such code or the memory has a wrong length.
pub fn read(tallies: &[i64], code: u64) -> Part
    ensures { result ≡ read_at tallies.now code }
{
    let Some(at) = start_of(tallies, code) else {
        return Part::empty();
    };
    part_of(&tallies[at..at + PART])
}

// A fit part is put into code's place; another is not written.
pub fn write(tallies: &mut [i64], code: u64, p: Part)
    ensures { tallies.new ≡ written tallies.old code p }
{
    let Some(at) = start_of(tallies, code) else {
        return;
    };
    if p.fit() {
        put(&mut tallies[at..at + PART], p);
    }
}

// Every number becomes 0.
#[tactic(auto, unfolding(crate::specs::Memory::zeros))]
pub fn clear(tallies: &mut [i64])
    ensures { tallies.new ≡ zeros (length tallies.old) }
{
    tallies.fill(0);
}

// Where code's part begins; nowhere where there is no such code or the memory has a wrong length.
fn start_of(tallies: &[i64], code: u64) -> Option<usize>
    ensures { result ≡ start_of tallies.now code }
{
    if (LAST_CODE < code) | (tallies.len() != LENGTH) {
        return None;
    }
    Some(code as usize * PART)
}

// A count below 0 is unfit, and its size alone does not show it.
fn part_fit(p: &[i64]) -> bool
    requires { length p.now ≡ part_length }
    ensures { result ≡ numbers_fit p.now }
{
    let t = tally_of(p);
    (is_unsigned(p) & t.fit()) && add_to(&p[TALLY..], t.n)
}

// The class counts are counts and add to n. That each is small is tested first.
fn add_to(p: &[i64], n: u64) -> bool
    requires { (length p.now ≡ class_count) × (n ≤ tally_limit) }
    ensures { result ≡ (all_of (le_z (pos 0)) p.now && eqb (add_up (map nat_abs p.now)) n) }
{
    are_small(p) && sum_of(p) == n
}

fn are_small(p: &[i64]) -> bool
    requires { length p.now ≡ class_count }
    ensures { result ≡ all_of small_count p.now }
{
    p.iter().all(|x| (0 <= *x) & (*x <= MOST))
}

fn sum_of(p: &[i64]) -> u64
    requires { (length p.now ≡ class_count) × (all_of small_count p.now ≡ true) }
    ensures { result ≡ add_up (map nat_abs p.now) }
{
    let mut sum = 0;
    for x in p {
        sum += size(*x);
    }
    sum
}

// The numbers that have no sign: all but the sum, the largest and the smallest.
fn is_unsigned(p: &[i64]) -> bool
    requires { tally_length ≤ length p.now }
    ensures { result ≡ unsigned p.now }
{
    p[..9].iter().all(|x| 0 <= *x) & (0 <= p[10])
}

#[tactic(auto, unfolding(crate::specs::Memory::part_of))]
fn part_of(p: &[i64]) -> Part
    requires { length p.now ≡ part_length }
    ensures { result ≡ part_of p.now }
{
    Part {
        tally: tally_of(p),
        classes: classes_of(&p[TALLY..]),
    }
}

#[tactic(auto, unfolding(crate::specs::Memory::tally_of))]
fn tally_of(p: &[i64]) -> Tally
    requires { tally_length ≤ length p.now }
    ensures { result ≡ tally_of p.now }
{
    Tally {
        counts: Counts {
            lolo: count_at(p, 0),
            lo: count_at(p, 1),
            ok: count_at(p, 2),
            hi: count_at(p, 3),
            hihi: count_at(p, 4),
            foreign: count_at(p, 5),
            double: count_at(p, 6),
            crash: count_at(p, 7),
        },
        n: count_at(p, 8),
        sum: p[9],
        squares: count_at(p, 10),
        largest: p[11],
        smallest: p[12],
    }
}

fn count_at(p: &[i64], k: usize) -> u64
    requires { k < length p.now }
    ensures { result ≡ nat_abs (get_or p.now k (pos 0)) }
{
    size(p[k])
}

fn classes_of(p: &[i64]) -> [u64; CLASSES]
    requires { length p.now ≡ class_count }
    ensures { result ≡ map nat_abs p.now }
{
    let mut classes = [0; CLASSES];
    for (i, count) in p.iter().enumerate() {
        classes[i] = size(*count);
    }
    classes
}

fn put(p: &mut [i64], fit: Part)
    requires { (length p.old ≡ part_length) × (part_fit fit ≡ true) }
    ensures { p.new ≡ part_numbers fit }
{
    put_tally(&mut p[..TALLY], fit.tally);
    put_classes(&mut p[TALLY..], &fit.classes);
}

fn put_classes(p: &mut [i64], classes: &[u64; CLASSES])
    requires { (length p.old ≡ class_count) × (add_up classes.now ≤ tally_limit) }
    ensures { p.new ≡ map pos classes.now }
{
    for (i, count) in classes.iter().enumerate() {
        p[i] = *count as i64;
    }
}

// The numbers of a fit tally are far below 2^63, so that the casts keep them.
fn put_tally(p: &mut [i64], t: Tally)
    requires { (length p.old ≡ tally_length) × (total t ≤ tally_limit) × (t.n ≤ tally_limit) × (t.squares < 2 ^ 63) }
    ensures { p.new ≡ numbers t }
{
    p.copy_from_slice(&[
        t.counts.lolo as i64,
        t.counts.lo as i64,
        t.counts.ok as i64,
        t.counts.hi as i64,
        t.counts.hihi as i64,
        t.counts.foreign as i64,
        t.counts.double as i64,
        t.counts.crash as i64,
        t.n as i64,
        t.sum,
        t.squares as i64,
        t.largest,
        t.smallest,
    ]);
}
