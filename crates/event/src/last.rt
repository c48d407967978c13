// What is kept of the last sample.
ghost use Rattle.std.specs.Prelude.{◌≡◌};
ghost use Rattle.event.specs.Sample.{last_fit};

use weight::is_weight;

#[derive(Clone, Copy)]
pub struct Last {
    // divisions, a weight
    pub gross: i64,
    // 0 to 255, input k as bit k - 1
    pub safety: u64,
    // 0 or 1
    pub foreign: u64,
}

impl Last {
    #[tactic(auto, unfolding(crate::specs::Sample::last_fit))]
    pub fn fit(self) -> bool
        ensures { result ≡ last_fit self }
    {
        is_weight(self.gross) & (self.safety <= 255) & (self.foreign <= 1)
    }
}
