// Samples known within a margin: document 02, T-12.
//
// Metrology staff know each gross only to plus or minus e divisions. `possible_outcomes` says which outcomes a box can have
// whose samples are these within e. It reads one list and a settings record; no line, memory or sheet is in its reach.
#![tactic(auto)]

ghost use Rattle.std.specs.Prelude.{◌≡◌, true, ◌*◌, ◌^◌, ◌≤◌, ◌<◌, nat_abs, length, None, Some, MatchResult};
ghost use Rattle.laws.specs.Choice.{bit};
ghost use Rattle.weight.specs.Weight.{largest_weight, is_weight};
ghost use Rattle.weight.specs.Mean.{rounded};
ghost use Rattle.settings.specs.Settings.{record_fit};
ghost use Rattle.verdict.specs.Verdict.{dismissed};
ghost use Rattle.possible.specs.Answer.{most_samples, widest, count_fits, all_weights, number_of, refusal_of, Answered};
ghost use Rattle.possible.specs.Bounds.{clipped, sum_at, undismissed, grades_between, outcomes_between};
ghost use Rattle.possible.specs.Exact.{Exact};

use settings::Settings;
use weight::{LARGEST, is_weight, mean_of};

// A call has 1 to so many samples.
pub const MOST_SAMPLES: usize = 9_999;

// The margin is 0 to this, in divisions.
pub const WIDEST: u64 = 1_000;

// Why a call is refused, in the order of its conditions: how many samples there are, a value out of its range, limits out of order.
#[derive(Clone, Copy, PartialEq, Eq)]
pub enum Refusal {
    Samples,
    Value,
    Contradiction,
}

impl Refusal {
    // The number that is printed: 15, which is this call's alone, 2 or 4.
    pub fn number(self) -> u64
        ensures { result ≡ number_of self }
    {
        match self {
            Refusal::Samples => 15,
            Refusal::Value => refusal::Refusal::Value.number(),
            Refusal::Contradiction => refusal::Refusal::Contradiction.number(),
        }
    }
}

// The mask with bit k for each possible outcome k, a grade or dismissed.
//
// Each sum between the least and the largest is one of samples within e, and so is each mean between their means: the
// possible outcomes are those of the means between. One pass over the samples for each end, and no memory.
#[tactic(auto, using(crate::proofs::Signed::signed, crate::proofs::Accepted::accepted))]
pub fn possible_outcomes(samples: &[i64], e: u64, s: Settings) -> Result<u64, Refusal>
    ensures { Answered samples.now e s result }
{
    accept(samples, e, s)?;
    let n = samples.len() as u64;
    let margin = e as i64;
    let low = mean(sum_at(samples, 0 - margin), n);
    let high = mean(sum_at(samples, margin), n);
    Ok(outcomes_between(s, low, high))
}

// With e = 0 the set has the one outcome of step 6, as a theorem.
pub fn exact_without_margin()
    ensures { Exact }
{}

// So many samples are a call's.
pub fn count_fits(count: usize) -> bool
    ensures { result ≡ count_fits count }
{
    (1 <= count) & (count <= MOST_SAMPLES)
}

// The first condition that holds refuses.
#[tactic(auto, unfolding(crate::specs::Answer::refusal_of))]
fn accept(samples: &[i64], e: u64, s: Settings) -> Result<(), Refusal>
    ensures { MatchResult result (λ _. refusal_of samples.now e s ≡ None) (λ r. refusal_of samples.now e s ≡ Some r) }
{
    if !count_fits(samples.len()) {
        return Err(Refusal::Samples);
    }
    if !(all_weights(samples) & (e <= WIDEST) & s.ranged()) {
        return Err(Refusal::Value);
    }
    if !s.ordered() {
        return Err(Refusal::Contradiction);
    }
    Ok(())
}

fn all_weights(samples: &[i64]) -> bool
    ensures { result ≡ all_weights samples.now }
{
    samples.iter().all(|x| is_weight(*x))
}

fn mean(sum: i64, n: u64) -> i64
    requires { 0 < n }
    ensures { result ≡ rounded sum n }
{
    mean_of(sum, n).unwrap_or(0)
}

// The sum of the samples, each moved by d and held within the weights.
#[tactic(auto, using(crate::proofs::Adding::adding))]
fn sum_at(samples: &[i64], d: i64) -> i64
    requires { (all_weights samples.now ≡ true) × (nat_abs d ≤ widest) × (length samples.now ≤ most_samples) }
    ensures { result ≡ sum_at d samples.now }
{
    let mut sum = 0;
    for x in samples {
        sum += clipped(*x, d);
    }
    sum
}

// x moved by d, held within the weights.
#[tactic(auto, unfolding(crate::specs::Bounds::clipped), using(crate::proofs::Signed::signed))]
fn clipped(x: i64, d: i64) -> i64
    requires { (is_weight x ≡ true) × (nat_abs d ≤ widest) }
    ensures { result ≡ clipped d x }
{
    let most = LARGEST as i64;
    (x + d).clamp(0 - most, most)
}

// The outcomes of the means from low to high.
fn outcomes_between(s: Settings, low: i64, high: i64) -> u64
    requires { (record_fit s ≡ true) × (is_weight low ≡ true) × (is_weight high ≡ true) }
    ensures { result ≡ outcomes_between s low high }
{
    let first = undismissed(low, s.nearzero);
    let l = first - s.tare;
    let h = high - s.tare;
    let dismissed = outcome_if(verdict::DISMISSED, low <= s.nearzero);
    dismissed + grades_between(s, l, h)
}

// The least mean from low on that is not dismissed: an `if`, as the rule is said, and no `max` of low and nearzero + 1.
#[tactic(auto, unfolding(crate::specs::Bounds::undismissed), using(crate::proofs::Signed::signed))]
fn undismissed(low: i64, nearzero: i64) -> i64
    requires { nat_abs nearzero ≤ largest_weight }
    ensures { result ≡ undismissed low nearzero }
{
    if low <= nearzero {
        return nearzero + 1;
    }
    low
}

// The grades of the nets from l to h, if there are any; where two limits are equal no net lies between them.
fn grades_between(s: Settings, l: i64, h: i64) -> u64
    ensures { (result ≡ grades_between s l h) × (result < 2 ^ dismissed) }
{
    let some = l <= h;
    let lolo = outcome_if(verdict::LOLO, some & (l < s.lolo));
    let lo = outcome_if(
        verdict::LO,
        some & (l < s.lo) & (s.lolo <= h) & (s.lolo < s.lo),
    );
    let ok = outcome_if(verdict::OK, some & (l <= s.hi) & (s.lo <= h));
    let hi = outcome_if(
        verdict::HI,
        some & (l <= s.hihi) & (s.hi < h) & (s.hi < s.hihi),
    );
    let hihi = outcome_if(verdict::HIHI, some & (s.hihi < h));
    lolo + lo + ok + hi + hihi
}

// The mask of one outcome, if it is possible; at most its bit, which the sums of the masks need.
fn outcome_if(outcome: u64, possible: bool) -> u64
    requires { outcome ≤ dismissed }
    ensures { (result ≡ 2 ^ outcome * bit possible) × (result ≤ 2 ^ outcome) }
{
    u64::from(possible) << outcome
}
