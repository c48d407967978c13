// When each condition of the table of refusals holds for an event on the line.
ghost use Rattle.std.specs.Prelude.{◌≡◌};
ghost use Rattle.line.specs.Refusal.{memory_sound, input_off, refusal_of, input_of};

use crate::line::Line;
use event::Event;
use refusal::{
    Faults, Refusal, lengths_wrong, nothing_to_cancel, reads_record, reads_tally,
    refused_in_emergency, refused_paused, refused_running, run_occupied, run_unsafe,
};
use settings::Settings;

impl Line {
    // 8 memory does not hold.
    #[tactic(auto, unfolding(crate::specs::Refusal::memory_sound))]
    fn memory_sound(&self, count: u64, active: Settings, tallies: &[i64], e: Event) -> bool
        ensures { result ≡ memory_sound self.now count active tallies.now e }
    {
        !lengths_wrong(count, tallies)
            && self.fit()
            && (!reads_record(e) || active.fit())
            && (!reads_tally(e) || tallies::fit_at(tallies, self.code))
    }

    // The lowest required input that is off in the last sample.
    pub(crate) fn input_off(&self) -> u64
        ensures { result ≡ input_off self.now }
    {
        mask::lowest_off(self.setup.need, self.last.safety)
    }

    // The refusal of an event: the first condition that holds.
    #[tactic(auto, unfolding(crate::specs::Refusal::refusal_of))]
    pub(crate) fn refusal(
        &self,
        count: u64,
        active: Settings,
        tallies: &[i64],
        e: Event,
    ) -> Option<Refusal>
        ensures { result ≡ refusal_of self.now count active tallies.now e }
    {
        let faults = Faults {
            memory: !self.memory_sound(count, active, tallies, e),
            form: false,
            value: !e.ranged(),
            running: refused_running(self.status, e),
            emergency: refused_in_emergency(self.status, e),
            paused: refused_paused(self.status, e),
            contradiction: !e.agrees(),
            safety: run_unsafe(self.input_off(), e),
            occupied: run_occupied(self.status, active.nearzero, self.last.gross, e),
            nothing: nothing_to_cancel(self.undo.is_none(), e),
        };
        faults.first()
    }

    // The lowest required input that is off, for refusal 5 alone.
    #[tactic(auto, unfolding(crate::specs::Refusal::input_of))]
    pub(crate) fn input(&self, refusal: Refusal) -> u64
        ensures { result ≡ input_of self.now refusal }
    {
        if refusal == Refusal::Safety {
            return self.input_off();
        }
        0
    }
}
