// What stands under a code: its tally, and beside it 21 class counts.
#![tactic(auto)]

ghost use Rattle.part.specs.Law.{ClassLaw};

mod class;
mod part;

pub use class::CLASSES;
pub use part::Part;

// Each net is in one class, the one that `class_of` gives. It says nothing of the code: it is a theorem on the definitions.
#[tactic(auto, using(crate::proofs::Held::class_law))]
pub fn one_class()
    ensures { ClassLaw }
{}
