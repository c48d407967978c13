// The figures of a tally.
ghost use Rattle.std.specs.Prelude.{◌≡◌, true, ◌≤◌};
ghost use Rattle.weight.specs.Weight.{is_weight};
ghost use Rattle.tally.specs.Tally.{tally_limit, counted_in};
ghost use Rattle.spread.specs.Figures.{report_fit};
ghost use Rattle.sheet.specs.Sheet.{unless_none, sheet_of};
ghost use Rattle.sheet.specs.Steps.{weight_or_none, less_target};

use part::{CLASSES, Part};
use tally::{Counts, Tally};
use weight::mean_of;

// A code's figures. Counts are of verdicts, up to 999,999 together; weights are in divisions; None where 01 prints none.
#[derive(Clone, Copy)]
pub struct Sheet {
    pub total: u64,
    pub ng: u64,
    pub counts: Counts,
    pub max: Option<i64>,
    pub min: Option<i64>,
    pub sum: i64,
    pub mean: Option<i64>,
    pub deviation: Option<i64>,
    // tenths of a division, below 15,000,000, as sdp
    pub sd: Option<u64>,
    pub sdp: Option<u64>,
    // the counts of classes 0 to 20
    pub classes: [u64; CLASSES],
}

pub(crate) fn sheet_of(p: Part, target: i64) -> Sheet
    requires { (report_fit p.tally ≡ true) × (is_weight target ≡ true) }
    ensures { result ≡ sheet_of p target }
{
    let t = p.tally;
    let classes = p.classes;
    let total = total_of(t.counts);
    let mean = mean_of(t.sum, t.n);
    Sheet {
        total,
        ng: total - t.counts.ok,
        counts: t.counts,
        max: unless_none(t, t.largest),
        min: unless_none(t, t.smallest),
        sum: t.sum,
        mean,
        deviation: deviation_of(mean, target),
        sd: spread::sd(t),
        sdp: spread::sdp(t),
        classes,
    }
}

fn total_of(c: Counts) -> u64
    requires { counted_in c ≤ tally_limit }
    ensures { result ≡ counted_in c }
{
    c.lolo + c.lo + c.ok + c.hi + c.hihi + c.foreign + c.double + c.crash
}

// x, a figure of the graded verdicts, where there are any.
fn unless_none(t: Tally, x: i64) -> Option<i64>
    ensures { result ≡ unless_none t x }
{
    (t.n != 0).then_some(x)
}

fn deviation_of(mean: Option<i64>, target: i64) -> Option<i64>
    requires { (weight_or_none mean ≡ true) × (is_weight target ≡ true) }
    ensures { result ≡ less_target mean target }
{
    Some(mean? - target)
}
