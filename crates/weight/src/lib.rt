// Weights and their rounded mean: document 01, "From sensor to sheet" and step 6 of a sample.
#![tactic(auto)]

ghost use Rattle.std.specs.Prelude.{◌≡◌, nat_abs};
ghost use Rattle.weight.specs.Weight.{is_weight};

mod rounding;

pub use rounding::{Case, mean_of, rounding_by_cases};

// The largest weight, in divisions.
pub const LARGEST: u64 = 999_999;

// The size of a number, without its sign.
pub fn size(x: i64) -> u64
    ensures { result ≡ nat_abs x }
{
    x.unsigned_abs()
}

// -LARGEST to LARGEST
pub fn is_weight(x: i64) -> bool
    ensures { result ≡ is_weight x }
{
    size(x) <= LARGEST
}
