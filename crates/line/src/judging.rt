// The verdict due on a box, and what it does to the line.
ghost use Rattle.std.specs.Prelude.{◌≡◌, true};
ghost use Rattle.weight.specs.Weight.{is_weight};
ghost use Rattle.settings.specs.Settings.{record_fit};
ghost use Rattle.line.specs.Effect.{effect_of};
ghost use Rattle.line.specs.Verdict.{sorted_for, stopped_for, given, or_crash, verdict_of, judged};

use crate::effect::Boxes;
use crate::line::Line;
use settings::Settings;
use sorters::{all_entered, any_blocks};
use status::error_for;

impl Line {
    // A verdict enters the queue of every sorter whose mask has its bit.
    #[tactic(auto, unfolding(crate::specs::Verdict::sorted_for))]
    fn sorted_for(&mut self, verdict: u64)
        ensures { self.new ≡ sorted_for self.old verdict }
    {
        self.sorters = all_entered(self.sorters, self.setup, verdict);
    }

    // With its stop bit the line pauses.
    #[tactic(auto, unfolding(crate::specs::Verdict::stopped_for))]
    fn stopped_for(&mut self, verdict: u64)
        ensures { self.new ≡ stopped_for self.old verdict }
    {
        if mask::has(self.setup.stop, verdict) {
            self.set_status(Line::PAUSED, error_for(verdict));
        }
    }

    // Only a grade has a net.
    #[tactic(auto, unfolding(crate::specs::Verdict::given))]
    pub(crate) fn given(&mut self, detected: u64, verdict: u64, net: i64) -> Boxes
        ensures { effect_of self.new result ≡ given self.old detected verdict net }
    {
        self.sorted_for(verdict);
        self.stopped_for(verdict);
        Boxes {
            detected,
            outcome: verdict,
            net: if verdict::is_grade(verdict) { net } else { 0 },
        }
    }

    // A verdict that should enter a queue that is full is crash.
    #[tactic(auto, unfolding(crate::specs::Verdict::or_crash))]
    fn or_crash(&self, verdict: u64) -> u64
        ensures { result ≡ or_crash self.now verdict }
    {
        if any_blocks(self.sorters, self.setup, verdict) {
            return verdict::CRASH;
        }
        verdict
    }

    // Foreign if a signal has ended, of which the oldest is used up, else the grade.
    #[tactic(auto, unfolding(crate::specs::Verdict::verdict_of))]
    fn verdict_of(&mut self, active: Settings, net: i64) -> Boxes
        ensures { effect_of self.new result ≡ verdict_of self.old active net }
    {
        if self.foreign.due() {
            let verdict = self.or_crash(verdict::FOREIGN);
            self.foreign = self.foreign.used();
            return self.given(0, verdict, net);
        }
        let verdict = self.or_crash(active.grade(net));
        self.given(0, verdict, net)
    }

    // The box whose mean is m: dismissed up to nearzero, else a verdict on its net weight.
    #[tactic(auto, unfolding(crate::specs::Verdict::judged))]
    pub(crate) fn judged(&mut self, active: Settings, m: i64) -> Boxes
        requires { (record_fit active ≡ true) × (is_weight m ≡ true) }
        ensures { effect_of self.new result ≡ judged self.old active m }
    {
        if m <= active.nearzero {
            return Boxes {
                detected: 0,
                outcome: verdict::DISMISSED,
                net: 0,
            };
        }
        let net = m - active.tare;
        self.verdict_of(active, net)
    }
}
