// Whether a line is fit: tested before every event, so that no caller is trusted.
ghost use Rattle.std.specs.Prelude.{◌≡◌};
ghost use Rattle.line.specs.Fit.{status_fit, line_fit};

use crate::line::Line;
use settings::is_code;
use sorters::all_fit;
use status::error_known;

impl Line {
    // Error none unless paused; stopped or in emergency nothing is in hand, queued or on.
    #[tactic(auto, unfolding(crate::specs::Fit::status_fit))]
    fn status_fit(&self) -> bool
        ensures { result ≡ status_fit self.now }
    {
        let halted = (self.status == Line::STOPPED) | (self.status == Line::EMERGENCY);
        (self.status <= 3)
            & error_known(self.error)
            & ((self.status == Line::PAUSED) | (self.error == Line::NO_ERROR))
            & !(halted && self.busy())
    }

    #[tactic(auto, unfolding(crate::specs::Fit::line_fit))]
    pub(crate) fn fit(&self) -> bool
        ensures { result ≡ line_fit self.now }
    {
        is_code(self.code)
            & self.setup.fit()
            & self.last.fit()
            & self.sensor.fit()
            & self.status_fit()
            & all_fit(self.sorters)
            & self.foreign.fit()
            & self.item.fit(self.setup)
            & undo::fit(self.undo)
            & self.bench.fit()
    }
}
