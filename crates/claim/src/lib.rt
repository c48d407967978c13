// Demand 3: no box is counted twice or lost, whatever list of events comes.
#![tactic(auto)]

ghost use Rattle.claim.specs.BenchMode.{BenchMode};
ghost use Rattle.claim.specs.Claim.{Claim};
ghost use Rattle.claim.specs.Example.{Example};
ghost use Rattle.claim.specs.Signals.{SignalsKept};
ghost use Rattle.claim.specs.SortersApart.{SortersApart};
ghost use Rattle.claim.specs.StatusRefusals.{StatusRefusals};
ghost use Rattle.claim.specs.Waiting.{NoBoxWaits};
ghost use Rattle.claim.specs.WaitingExample.{WaitingExample};

// The claim over every list of events, from a fresh line and fresh memory. It says nothing of the code here: it is a
// theorem on `step_on`, which `line::Line::apply` is proved to be.
#[tactic(auto, using(crate::proofs::Every::claim))]
pub fn ledger()
    ensures { Claim }
{}

// The worked example of document 01, on the same definitions.
#[tactic(auto, using(crate::proofs::Examples::worked_example))]
pub fn worked_example()
    ensures { Example }
{}

// Why the status refuses an event: 3, 9 and 10 each exactly where 02 gives it, and a refusal alters nothing.
#[tactic(auto, using(crate::proofs::StatusRefusals::status_refusals))]
pub fn status_refusals()
    ensures { StatusRefusals }
{}

// No foreign signal that is carried is lost but by a foreign verdict or its crash, and at most eight are carried.
#[tactic(auto, using(crate::proofs::Signals::signals_kept))]
pub fn signals_kept()
    ensures { SignalsKept }
{}

// What an event makes of a sorter hangs on that sorter, its settings, the tick and the verdict given, and on no other sorter.
#[tactic(auto, using(crate::proofs::SortersApart::sorters_apart))]
pub fn sorters_apart()
    ensures { SortersApart }
{}

// In bench mode two-on cannot occur, and between two detections there is an arming: a box that lies still is weighed once.
#[tactic(auto, using(crate::proofs::BenchMode::in_bench_mode))]
pub fn bench_mode()
    ensures { BenchMode }
{}

// Over every list of events a box has its outcome by the last of the tw + ta running ticks that follow its detection, a weighed
// one not sooner, and it is the box's own.
#[tactic(auto, using(crate::proofs::Waiting::box_served))]
pub fn no_box_waits()
    ensures { NoBoxWaits }
{}

// A box over two pauses, a refused sample and error 7, on the same definitions.
#[tactic(auto, using(crate::proofs::Examples::waiting_example))]
pub fn waiting_example()
    ensures { WaitingExample }
{}
