// The spread of a tally in tenths of a division, exactly: document 01, "The sheet's figures", as request T-06 of 02 changes
// it. Below, n is the number of its graded verdicts, q their sum of squares and s the size of their sum.
#![tactic(auto)]

ghost use Rattle.std.specs.Prelude.{◌≡◌, true, ◌+◌, ◌*◌, ◌≤◌, ◌<◌, leb, nat_abs};
ghost use Rattle.tally.specs.Tally.{tally_limit, tally_fit};
ghost use Rattle.spread.specs.Root.{Largest};
ghost use Rattle.spread.specs.Figures.{report_fit, apart_of, times, spread_of, sd_of, sdp_of};
ghost use Rattle.spread.specs.Theorem.{RootIsTheLargest};
ghost use Rattle.spread.specs.Wide.{value, Digits, Holds};

mod wide;

use tally::Tally;
use weight::size;
use wide::Wide;

// How often n * q - s * s is taken: `times` of specs/Figures.antt.
const TIMES: u64 = 100;

// Fit for a report: the spreads are roots of n * q - s * s, which must not be below 0.
#[tactic(auto, unfolding(crate::specs::Figures::report_fit))]
pub fn fit(t: Tally) -> bool
    ensures { result ≡ report_fit t }
{
    if !t.fit() {
        return false;
    }
    sum_squared(t).at_most(n_times_q(t))
}

// The spread of a sample, over n * (n - 1): tenths of a division, below 15,000,000 for every tally.
#[tactic(auto, using(crate::proofs::Tallies::spread_none))]
pub fn sd(t: Tally) -> Option<u64>
    ensures { result ≡ sd_of t }
{
    if t.n < 2 {
        return None;
    }
    over(t, t.n - 1)
}

// The spread of a population, over n * n: tenths of a division, below 15,000,000 for every tally.
pub fn sdp(t: Tally) -> Option<u64>
    ensures { result ≡ sdp_of t }
{
    over(t, t.n)
}

// Says nothing of the code: its contract is the theorem on the definitions.
pub fn root_is_the_largest()
    ensures { RootIsTheLargest }
{}

// The spread over n * m.
fn over(t: Tally, m: u64) -> Option<u64>
    requires { (m ≤ t.n) × (t.n ≤ m + 1) }
    ensures { result ≡ spread_of t m }
{
    if (0 < m) & fit(t) {
        return Some(root(t.n, m, apart(t)));
    }
    None
}

// TIMES * (n * q - s * s)
fn apart(t: Tally) -> Wide
    requires { report_fit t ≡ true }
    ensures { Holds result (times * apart_of t) }
{
    n_times_q(t).less(sum_squared(t)).by(TIMES)
}

// n * q
fn n_times_q(t: Tally) -> Wide
    requires { tally_fit t ≡ true }
    ensures { Holds result (t.n * t.squares) }
{
    Wide::of(t.squares).by(t.n)
}

// s * s
fn sum_squared(t: Tally) -> Wide
    requires { tally_fit t ≡ true }
    ensures { Holds result (nat_abs t.sum * nat_abs t.sum) }
{
    let s = size(t.sum);
    Wide::product(s, s)
}

// No `isqrt` of the library: x does not fit 64 bits.
// The largest r that fits in x, by halving a bracket around it. No root of a fit tally reaches the bracket's first end:
// r * r is at most TIMES * 2 * 10^12.
fn root(n: u64, m: u64, x: Wide) -> u64
    requires { (n ≤ tally_limit) × (m ≤ n) × Digits x × (value x < 15000000 * 15000000 * (n * m)) }
    ensures { Largest (n * m) (value x) result }
{
    let mut low = 0;
    let mut high = 15_000_000;
    while low + 1 < high {
        let mid = (low + high) / 2;
        if fits_in(mid, n, m, x) {
            low = mid;
        } else {
            high = mid;
        }
    }
    low
}

// r * r * n * m <= x
fn fits_in(r: u64, n: u64, m: u64, x: Wide) -> bool
    requires { (r ≤ 15000000) × (n ≤ tally_limit) × (m ≤ n) × Digits x }
    ensures { result ≡ leb (r * r * (n * m)) (value x) }
{
    Wide::of(r * r).by(n).by(m).at_most(x)
}
