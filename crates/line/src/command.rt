// Run, stop and emergency, as accepted.
ghost use Rattle.std.specs.Prelude.{◌≡◌};
ghost use Rattle.line.specs.Effect.{effect_of};
ghost use Rattle.line.specs.Command.{ran, stopping, alarmed};

use crate::effect::Boxes;
use crate::line::Line;

impl Line {
    #[tactic(auto, unfolding(crate::specs::Command::ran))]
    pub(crate) fn ran(&mut self) -> Boxes
        ensures { effect_of self.new result ≡ ran self.old }
    {
        self.bench = self.bench.begun(self.status == Line::STOPPED);
        self.set_status(Line::RUNNING, Line::NO_ERROR);
        Boxes::none()
    }

    #[tactic(auto, unfolding(crate::specs::Command::stopping))]
    pub(crate) fn stopping(&mut self) -> Boxes
        ensures { effect_of self.new result ≡ stopping self.old }
    {
        if (self.status == Line::RUNNING) & self.busy() {
            self.set_status(Line::PAUSED, status::PLAIN);
            return Boxes::none();
        }
        if self.status == Line::STOPPED {
            return Boxes::none();
        }
        self.halting(Line::STOPPED)
    }

    #[tactic(auto, unfolding(crate::specs::Command::alarmed))]
    pub(crate) fn alarmed(&mut self) -> Boxes
        ensures { effect_of self.new result ≡ alarmed self.old }
    {
        self.halting(Line::EMERGENCY)
    }
}
