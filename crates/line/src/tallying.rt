// How a verdict changes the tallies and the chance to cancel.
ghost use Rattle.std.specs.Prelude.{◌≡◌};
ghost use Rattle.line.specs.Effect.{effect_of};
ghost use Rattle.line.specs.Tallying.{noted, recorded};

use crate::effect::Boxes;
use crate::line::Line;
use event::Reply;

impl Line {
    // A verdict is tallied under the active code, whose target goes with it; the tally as before it is kept, and a full one
    // leaves nothing to cancel.
    #[tactic(auto, unfolding(crate::specs::Tallying::noted, crate::specs::Effect::replied, crate::specs::Line::busy, crate::specs::Line::conveyor, crate::specs::Line::sorter_field))]
    fn noted(&mut self, boxes: Boxes, target: i64, tallies: &mut [i64]) -> Reply
        ensures line { self.new ≡ (noted (effect_of self.old boxes) target tallies.old).line }
        ensures reply { result ≡ (noted (effect_of self.old boxes) target tallies.old).reply }
        ensures memory { tallies.new ≡ (noted (effect_of self.old boxes) target tallies.old).tallies }
    {
        self.undo = undo::note(tallies, self.code, boxes.outcome, boxes.net, target);
        self.replied(boxes, u64::from(self.undo.is_some()))
    }

    // The verdict on a box, if one was given, is noted.
    #[tactic(auto, unfolding(crate::specs::Tallying::recorded))]
    pub(crate) fn recorded(&mut self, boxes: Boxes, target: i64, tallies: &mut [i64]) -> Reply
        ensures line { self.new ≡ (recorded (effect_of self.old boxes) target tallies.old).line }
        ensures reply { result ≡ (recorded (effect_of self.old boxes) target tallies.old).reply }
        ensures memory { tallies.new ≡ (recorded (effect_of self.old boxes) target tallies.old).tallies }
    {
        if verdict::is_verdict(boxes.outcome) {
            return self.noted(boxes, target, tallies);
        }
        self.replied(boxes, 0)
    }
}
