// A tally's eight counts.
ghost use Rattle.std.specs.Prelude.{◌≡◌, ◌≤◌};
ghost use Rattle.tally.specs.Steps.{small_counts};
ghost use Rattle.tally.specs.Tally.{tally_limit, no_counts, counted_in, counted_with};

use crate::tally::Tally;

// Verdicts of each kind, up to 999,999 together: fields and no array, since the sheet prints them by name.
#[derive(Clone, Copy)]
pub struct Counts {
    pub lolo: u64,
    pub lo: u64,
    pub ok: u64,
    pub hi: u64,
    pub hihi: u64,
    pub foreign: u64,
    pub double: u64,
    pub crash: u64,
}

impl Counts {
    pub fn none() -> Counts
        ensures { result ≡ no_counts }
    {
        Counts {
            lolo: 0,
            lo: 0,
            ok: 0,
            hi: 0,
            hihi: 0,
            foreign: 0,
            double: 0,
            crash: 0,
        }
    }

    // They are tested one by one, since a sum of any eight numbers may overflow.
    pub(crate) fn are_small(self) -> bool
        ensures { result ≡ small_counts self }
    {
        (self.lolo <= Tally::LIMIT)
            & (self.lo <= Tally::LIMIT)
            & (self.ok <= Tally::LIMIT)
            & (self.hi <= Tally::LIMIT)
            & (self.hihi <= Tally::LIMIT)
            & (self.foreign <= Tally::LIMIT)
            & (self.double <= Tally::LIMIT)
            & (self.crash <= Tally::LIMIT)
    }

    // The counts with one more of a verdict.
    #[tactic(auto, unfolding(crate::specs::Tally::counted_with))]
    pub(crate) fn with(mut self, verdict: u64) -> Counts
        requires { counted_in self ≤ tally_limit }
        ensures { result ≡ counted_with self verdict }
    {
        self.lolo += u64::from(verdict == verdict::LOLO);
        self.lo += u64::from(verdict == verdict::LO);
        self.ok += u64::from(verdict == verdict::OK);
        self.hi += u64::from(verdict == verdict::HI);
        self.hihi += u64::from(verdict == verdict::HIHI);
        self.foreign += u64::from(verdict == verdict::FOREIGN);
        self.double += u64::from(verdict == verdict::TWO_ON);
        self.crash += u64::from(verdict == verdict::CRASH);
        self
    }
}
