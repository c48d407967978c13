// A code's part.
ghost use Rattle.std.specs.Prelude.{◌≡◌, min};
ghost use Rattle.lists.specs.Counts.{add_up};
ghost use Rattle.part.specs.Part.{empty_part, part_fit, noted_part};
ghost use Rattle.part.specs.Steps.{most};

use crate::class::{CLASSES, class_of};
use tally::Tally;
use weight::is_weight;

// The tally of a code, and how many of its graded verdicts are in each class.
#[derive(Clone, Copy)]
pub struct Part {
    pub tally: Tally,
    pub classes: [u64; CLASSES],
}

impl Part {
    pub fn empty() -> Part
        ensures { result ≡ empty_part }
    {
        Part {
            tally: Tally::empty(),
            classes: [0; CLASSES],
        }
    }

    // The tally is fit, and the class counts add to its n.
    #[tactic(auto, using(crate::proofs::Noted::cut_fit))]
    pub fn fit(self) -> bool
        ensures { result ≡ part_fit self }
    {
        self.tally.fit() & (self.classified() == self.tally.n)
    }

    // The part with a verdict, if it takes it: a graded one has a class, another has none. Net, and the code's target at the
    // verdict, are in divisions.
    #[tactic(auto, using(crate::proofs::Noted::unsound, crate::proofs::Noted::untaken, crate::proofs::Noted::noted_grade, crate::proofs::Noted::noted_other, crate::proofs::Noted::as_given, crate::proofs::Noted::net_weight, crate::proofs::Noted::target_weight, crate::proofs::Laws::count_small))]
    pub fn noted(mut self, verdict: u64, net: i64, target: i64) -> Option<Part>
        ensures { result ≡ noted_part self verdict net target }
    {
        if !(self.fit() & is_weight(target)) {
            return None;
        }
        self.tally = self.tally.noted(verdict, net)?;
        if verdict::is_grade(verdict) {
            self.classes[class_of(net, target)] += 1;
        }
        Some(self)
    }

    // All class counts together. Their sum may overflow, and is cut where no fit tally counts so many.
    #[tactic(auto, using(crate::proofs::Noted::cut_next, crate::proofs::Noted::cut_end))]
    fn classified(self) -> u64
        ensures { result ≡ min (add_up self.classes) most }
    {
        let mut all = 0u64;
        for count in &self.classes {
            all = all.saturating_add(*count);
        }
        all
    }
}
