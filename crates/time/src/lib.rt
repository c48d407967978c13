// Times are in ticks of 10 ms.
#![tactic(auto)]

ghost use Rattle.std.specs.Prelude.{◌≡◌};
ghost use Rattle.time.specs.Time.{is_time, fallen};

// the longest that a fit line holds
pub const LONGEST: u64 = 9_999;

// 0 to LONGEST
pub fn is_time(t: u64) -> bool
    ensures { result ≡ is_time t }
{
    t <= LONGEST
}

// A time after one tick more; at 0 it stays.
pub fn fallen(t: u64) -> u64
    ensures { result ≡ fallen t }
{
    t.saturating_sub(1)
}
