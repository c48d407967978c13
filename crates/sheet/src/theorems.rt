// Theorems on the definitions, as contracts: the functions do nothing.
ghost use Rattle.sheet.specs.Apart.{Apart};
ghost use Rattle.sheet.specs.Bench.{Bench};

// No list of weights makes a tally that a report refuses for S² ≤ n·Q.
#[tactic(auto, using(crate::proofs::Lists::apart_holds))]
pub fn always_apart()
    ensures { Apart }
{}

// 01's bench marks, with T-06's spreads.
pub fn bench()
    ensures { Bench }
{}
