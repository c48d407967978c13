// A code's tally: eight counts, and of the graded verdicts number, sum, sum of squares, largest and smallest.
ghost use Rattle.std.specs.Prelude.{◌≡◌, true, ◌≤◌, nat_abs};
ghost use Rattle.weight.specs.Weight.{largest_weight};
ghost use Rattle.tally.specs.Steps.{Bounded, none_is_zero};
ghost use Rattle.tally.specs.Tally.{empty_tally, tally_fit, weighed_with, largest_with, smallest_with, added, takes, noted_of};

use crate::counts::Counts;
use weight::{LARGEST, is_weight, size};

// n is the number of graded verdicts; sum, largest and smallest are in divisions, squares in divisions squared.
#[derive(Clone, Copy)]
pub struct Tally {
    pub counts: Counts,
    pub n: u64,
    pub sum: i64,
    pub squares: u64,
    pub largest: i64,
    pub smallest: i64,
}

impl Tally {
    // verdicts that a tally takes
    pub const LIMIT: u64 = 999_999;

    // more than the square of any weight
    const LARGEST_SQUARE: u64 = 1_000_000_000_000;

    pub fn empty() -> Tally
        ensures { result ≡ empty_tally }
    {
        Tally {
            counts: Counts::none(),
            n: 0,
            sum: 0,
            squares: 0,
            largest: 0,
            smallest: 0,
        }
    }

    #[tactic(auto, using(crate::proofs::Facts::large_unfit))]
    pub fn fit(self) -> bool
        ensures { result ≡ tally_fit self }
    {
        let counts = self.counts;
        if !(counts.are_small() & (self.n <= Tally::LIMIT)) {
            return false;
        }
        let graded = counts.lolo + counts.lo + counts.ok + counts.hi + counts.hihi;
        (graded + counts.foreign + counts.double + counts.crash <= Tally::LIMIT)
            & (self.n == graded)
            & (size(self.sum) <= self.n * LARGEST)
            & (self.squares <= self.n * Tally::LARGEST_SQUARE)
            & is_weight(self.largest)
            & is_weight(self.smallest)
            & self.none_is_zero()
    }

    // The tally with a verdict, if it takes it; the line asks only with a fit tally.
    #[tactic(auto, unfolding(crate::specs::Tally::noted_of))]
    pub fn noted(self, verdict: u64, net: i64) -> Option<Tally>
        ensures { result ≡ noted_of self verdict net }
    {
        if self.takes(verdict, net) {
            Some(self.added(verdict, net))
        } else {
            None
        }
    }

    #[tactic(auto, unfolding(crate::specs::Tally::takes))]
    fn takes(self, verdict: u64, net: i64) -> bool
        ensures { result ≡ takes self verdict net }
    {
        if !self.fit() {
            return false;
        }
        // n counts the graded ones
        let total = self.n + self.counts.foreign + self.counts.double + self.counts.crash;
        verdict::is_verdict(verdict) & is_weight(net) & (total < Tally::LIMIT)
    }

    // With nothing graded, largest and smallest are 0.
    fn none_is_zero(self) -> bool
        ensures { result ≡ none_is_zero self }
    {
        (self.n != 0) | ((self.largest == 0) & (self.smallest == 0))
    }

    #[tactic(auto, unfolding(crate::specs::Tally::added))]
    fn added(mut self, verdict: u64, net: i64) -> Tally
        requires { (tally_fit self ≡ true) × (nat_abs net ≤ largest_weight) }
        ensures { result ≡ added self verdict net }
    {
        self.counts = self.counts.with(verdict);
        if verdict::is_grade(verdict) {
            return self.weighed(net);
        }
        self
    }

    // The first graded verdict sets largest and smallest, so they come before n.
    fn weighed(mut self, net: i64) -> Tally
        requires { (Bounded self) × (nat_abs net ≤ largest_weight) }
        ensures { result ≡ weighed_with self net }
    {
        let largest = self.larger(net);
        let smallest = self.smaller(net);
        let m = size(net);
        self.n += 1;
        self.sum += net;
        self.squares += m * m;
        self.largest = largest;
        self.smallest = smallest;
        self
    }

    #[tactic(auto, unfolding(crate::specs::Tally::largest_with))]
    fn larger(self, net: i64) -> i64
        ensures { result ≡ largest_with self net }
    {
        if self.n == 0 {
            net
        } else {
            self.largest.max(net)
        }
    }

    #[tactic(auto, unfolding(crate::specs::Tally::smallest_with))]
    fn smaller(self, net: i64) -> i64
        ensures { result ≡ smallest_with self net }
    {
        if self.n == 0 {
            net
        } else {
            self.smallest.min(net)
        }
    }
}
