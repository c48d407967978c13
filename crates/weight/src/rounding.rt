// The rounded mean, by the six cases that service staff tick: document 02, T-03. The page for them is docs/ROUNDING.md.
ghost use Rattle.std.specs.Prelude.{◌≡◌, true, ◌≤◌, ◌<◌, ◌^◌, pos, neg_ℤ};
ghost use Rattle.weight.specs.Mean.{mean_of};
ghost use Rattle.weight.specs.Cases.{holds, result_of, RoundingByCases};

use crate::size;
use std::cmp::Ordering;

// The remainder below half, exactly half or above half of the number; the sum at least 0 or negative.
#[derive(Clone, Copy)]
pub enum Case {
    Below,
    Half,
    Above,
    NegativeBelow,
    NegativeHalf,
    NegativeAbove,
}

// The sum over n to the nearest, halves away from zero; none at n = 0.
#[tactic(auto, using(crate::proofs::Cases::rounded_by))]
pub fn mean_of(sum: i64, n: u64) -> Option<i64>
    ensures { result ≡ mean_of sum n }
{
    if n == 0 {
        return None;
    }
    Some(case_of(sum, n).result(sum, n))
}

// Exactly one case holds, each has its own result, and that is the rounding.
#[tactic(auto, unfolding(crate::specs::Mean::nearest, crate::specs::Mean::rounded), using(crate::proofs::Cases::one_case, crate::proofs::Cases::rounded_by))]
pub fn rounding_by_cases()
    ensures { RoundingByCases }
{}

// The case that holds. The remainder is compared with what it lacks of n, so that nothing is doubled.
fn case_of(sum: i64, n: u64) -> Case
    requires { 0 < n }
    ensures { holds result sum n ≡ true }
{
    let remainder = size(sum) % n;
    match (0 <= sum, remainder.cmp(&(n - remainder))) {
        (true, Ordering::Less) => Case::Below,
        (true, Ordering::Equal) => Case::Half,
        (true, Ordering::Greater) => Case::Above,
        (false, Ordering::Less) => Case::NegativeBelow,
        (false, Ordering::Equal) => Case::NegativeHalf,
        (false, Ordering::Greater) => Case::NegativeAbove,
    }
}

impl Case {
    // The whole quotient without sign, one more from half on, then the sign.
    fn result(self, sum: i64, n: u64) -> i64
        requires { (0 < n) × (holds self sum n ≡ true) }
        ensures { result ≡ result_of self sum n }
    {
        let quotient = size(sum) / n;
        match self {
            Case::Below => quotient as i64,
            Case::Half => (quotient + 1) as i64,
            Case::Above => (quotient + 1) as i64,
            Case::NegativeBelow => negative(quotient),
            Case::NegativeHalf => negative(quotient + 1),
            Case::NegativeAbove => negative(quotient + 1),
        }
    }
}

// q with a minus. Exact: q itself may be 2^63, and that is the largest which a minus leaves room for.
fn negative(q: u64) -> i64
    requires { q ≤ 2 ^ 63 }
    ensures { result ≡ neg_ℤ (pos q) }
{
    0i64.saturating_sub_unsigned(q)
}
