// The outcome that `possible` speaks of is that of the line's own step 6: document 02, T-12. A theorem and no code.
#![tactic(auto)]

ghost use Rattle.stepsix.specs.StepSix.{SameAsStep6};

// What samples "would give" is what a line's step 6 gives that is fed them one by one.
#[tactic(auto, using(crate::proofs::Fed::as_step_6))]
pub fn same_as_step_6()
    ensures { SameAsStep6 }
{}
