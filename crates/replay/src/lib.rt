// Events run by the code: what the claim of demand 3 says of every list of events holds of what the controller does.
#![tactic(auto)]

ghost use Rattle.std.specs.Prelude.{◌≡◌, length};
ghost use Rattle.tallies.specs.Memory.{tallies_length};
ghost use Rattle.line.specs.Step.{step_on};
ghost use Rattle.claim.specs.Claim.{Stands};
ghost use Rattle.replay.specs.Replay.{fresh_plant, state_of, plant_in, turned_by, Follows, replayed};

use event::{Event, Reply};
use line::Line;
use settings::{RECORDS, Settings};

// A line with its own hundred settings records.
#[derive(Clone, Copy)]
pub struct Plant {
    pub line: Line,
    pub settings: [Settings; RECORDS as usize],
}

// The plant after an event, and the reply.
#[derive(Clone, Copy)]
pub struct Turned {
    pub plant: Plant,
    pub reply: Reply,
}

impl Plant {
    pub fn fresh() -> Plant
        ensures { result ≡ fresh_plant }
    {
        Plant {
            line: Line::fresh(),
            settings: [Settings::blank(); RECORDS as usize],
        }
    }

    // One event on the plant and the lent tallies: a caller that owns its records needs no other call.
    pub fn turn(mut self, tallies: &mut [i64], e: Event) -> Turned
        ensures answer { result ≡ turned_by (state_of self tallies.old) e }
        ensures memory { tallies.new ≡ (step_on (state_of self tallies.old) e).state.tallies }
        ensures follows { Follows (state_of self tallies.old) e result tallies.new }
    {
        let step = self.line.apply(&mut self.settings, tallies, e);
        self.line = step.line;
        Turned {
            plant: self,
            reply: step.reply,
        }
    }
}

// Events, in their order, on a fresh plant, whose tallies are cleared first.
#[tactic(auto, unfolding(claim::specs::Run::run_from, claim::specs::Run::run), using(claim::proofs::Every::claim))]
pub fn replay(tallies: &mut [i64], events: &[Event]) -> Plant
    ensures plant { result ≡ plant_in (replayed (length tallies.old) events.now).state }
    ensures memory { tallies.new ≡ (replayed (length tallies.old) events.now).state.tallies }
    ensures stands { length tallies.old ≡ tallies_length → Stands (replayed (length tallies.old) events.now) }
{
    tallies::clear(&mut *tallies);
    let mut plant = Plant::fresh();
    for e in events {
        plant = plant.turn(&mut *tallies, *e).plant;
    }
    plant
}
