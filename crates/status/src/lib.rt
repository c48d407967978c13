// The line's status and error: their numbers, the error that a verdict stops the line with, and when the conveyor runs.
// They are numbers and no enums: a line's record is public, and one with any number in them must be refusable.
#![tactic(auto)]

ghost use Rattle.std.specs.Prelude.{◌≡◌};
ghost use Rattle.status.specs.Status.{error_known, error_for, conveyor_runs};

use event::{Done, Setup};

pub const STOPPED: u64 = 0;

pub const RUNNING: u64 = 1;

pub const PAUSED: u64 = 2;

pub const EMERGENCY: u64 = 3;

// The errors: a stop while busy or a grade that stops, a required input off, two-on, foreign, crash, a ninth foreign signal.
pub const PLAIN: u64 = 0;

pub const UNSAFE: u64 = 1;

pub const TWO_ON: u64 = 2;

pub const FOREIGN: u64 = 5;

pub const CRASH: u64 = 6;

pub const NINTH_SIGNAL: u64 = 7;

#[tactic(auto, unfolding(crate::specs::Status::error_known))]
pub fn error_known(error: u64) -> bool
    ensures { result ≡ error_known error }
{
    matches!(
        error,
        Done::NO_ERROR | PLAIN | UNSAFE | TWO_ON | FOREIGN | CRASH | NINTH_SIGNAL
    )
}

// The error of a line that this verdict, 1 (LoLo) to 8 (crash), stops.
#[tactic(auto, unfolding(crate::specs::Status::error_for))]
pub fn error_for(verdict: u64) -> u64
    ensures { result ≡ error_for verdict }
{
    match verdict {
        verdict::TWO_ON => TWO_ON,
        verdict::FOREIGN => FOREIGN,
        verdict::CRASH => CRASH,
        _ => PLAIN,
    }
}

// With a status and a mode, an item in hand or not.
#[tactic(auto, unfolding(crate::specs::Status::conveyor_runs))]
pub fn conveyor_runs(status: u64, mode: u64, hand: bool) -> bool
    ensures { result ≡ conveyor_runs status mode hand }
{
    (status == RUNNING) & (mode != Setup::BENCH) & !((mode == 2) & hand)
}
