// What an event does to boxes, before a verdict is tallied, and the reply.
ghost use Rattle.std.specs.Prelude.{◌≡◌, pos};
ghost use Rattle.line.specs.Effect.{effect_of, halted, halting, replied};

use crate::line::Line;
use event::{Done, Reply};
use item::Item;
use sorters::all_off;

// What an event does to boxes, beside the line.
// What the reply prints stays in its numbers: no step reads them but to tally a verdict.
#[derive(Clone, Copy)]
pub(crate) struct Boxes {
    // 1 if a box was detected, else 0
    pub(crate) detected: u64,
    // 0 none, 1 to 8 the verdicts in mask order, 9 dismissed, 10 abandoned
    pub(crate) outcome: u64,
    // divisions, 0 unless the outcome is a grade, 1 to 5
    pub(crate) net: i64,
}

impl Boxes {
    pub(crate) fn none() -> Boxes
        ensures { result ≡ record { detected = 0; outcome = 0; net = pos 0 } }
    {
        Boxes {
            detected: 0,
            outcome: 0,
            net: 0,
        }
    }
}

impl Line {
    #[tactic(auto, unfolding(crate::specs::Effect::replied))]
    pub(crate) fn replied(&self, boxes: Boxes, tallied: u64) -> Reply
        ensures { result ≡ replied (effect_of self.now boxes) tallied }
    {
        Ok(Done {
            status: self.status,
            busy: u64::from(self.busy()),
            conveyor: u64::from(self.conveyor()),
            sorter: self.sorter_field(),
            detected: boxes.detected,
            outcome: boxes.outcome,
            net: boxes.net,
            tallied,
            error: self.error,
        })
    }

    // Entering status 0 or 3 abandons an item in hand, empties the queues and puts the sorters off.
    #[tactic(auto, unfolding(crate::specs::Effect::halted))]
    fn halted(&mut self, status: u64)
        ensures { self.new ≡ halted self.old status }
    {
        self.set_status(status, Line::NO_ERROR);
        self.sorters = all_off();
        self.item = Item::None;
    }

    #[tactic(auto, unfolding(crate::specs::Effect::halting))]
    pub(crate) fn halting(&mut self, status: u64) -> Boxes
        ensures { effect_of self.new result ≡ halting self.old status }
    {
        let in_hand = self.item.in_hand();
        self.halted(status);
        if in_hand {
            return Boxes {
                detected: 0,
                outcome: verdict::ABANDONED,
                net: 0,
            };
        }
        Boxes::none()
    }
}
