// When the conditions of the table hold, as far as that is decided without the line's record.
ghost use Rattle.std.specs.Prelude.{◌≡◌};
ghost use Rattle.refusal.specs.Rows.{lengths_wrong, reads_record, reads_tally, refused_running, refused_in_emergency, refused_paused, run_unsafe, run_occupied, nothing_to_cancel};

use event::Event;

// 8 memory: not a hundred records, or tallies of a wrong length.
#[tactic(auto, unfolding(crate::specs::Rows::lengths_wrong))]
pub fn lengths_wrong(count: u64, tallies: &[i64]) -> bool
    ensures { result ≡ lengths_wrong count tallies.now }
{
    !settings::all_there(count) | (tallies.len() != tallies::LENGTH)
}

// The event's check covers the active record, and the active tally.
#[tactic(auto, unfolding(crate::specs::Rows::reads_record))]
pub fn reads_record(e: Event) -> bool
    ensures { result ≡ reads_record e }
{
    matches!(e, Event::Run | Event::Sample(_))
}

#[tactic(auto, unfolding(crate::specs::Rows::reads_tally))]
pub fn reads_tally(e: Event) -> bool
    ensures { result ≡ reads_tally e }
{
    matches!(e, Event::Sample(_) | Event::Cancel)
}

// 3 status
#[tactic(auto, unfolding(crate::specs::Rows::refused_running))]
pub fn refused_running(status: u64, e: Event) -> bool
    ensures { result ≡ refused_running status e }
{
    matches!(e, Event::Run | Event::Setup(_) | Event::Store(_)) & (status == status::RUNNING)
}

// 9 emergency
#[tactic(auto, unfolding(crate::specs::Rows::refused_in_emergency))]
pub fn refused_in_emergency(status: u64, e: Event) -> bool
    ensures { result ≡ refused_in_emergency status e }
{
    matches!(e, Event::Run | Event::Stop | Event::Setup(_)) & (status == status::EMERGENCY)
}

// 10 paused
#[tactic(auto, unfolding(crate::specs::Rows::refused_paused))]
pub fn refused_paused(status: u64, e: Event) -> bool
    ensures { result ≡ refused_paused status e }
{
    matches!(e, Event::Setup(_)) & (status == status::PAUSED)
}

// 5 safety: `input` is the lowest required input that is off in the last sample, 0 if none is.
#[tactic(auto, unfolding(crate::specs::Rows::run_unsafe))]
pub fn run_unsafe(input: u64, e: Event) -> bool
    ensures { result ≡ run_unsafe input e }
{
    matches!(e, Event::Run) & (input != 0)
}

// 6 occupied: nearzero is the active code's, gross the last sample's, in divisions.
#[tactic(auto, unfolding(crate::specs::Rows::run_occupied))]
pub fn run_occupied(status: u64, nearzero: i64, gross: i64, e: Event) -> bool
    ensures { result ≡ run_occupied status nearzero gross e }
{
    matches!(e, Event::Run) & (status == status::STOPPED) & (nearzero < gross)
}

// 7 nothing: `none` where there is no chance to cancel.
#[tactic(auto, unfolding(crate::specs::Rows::nothing_to_cancel))]
pub fn nothing_to_cancel(none: bool, e: Event) -> bool
    ensures { result ≡ nothing_to_cancel none e }
{
    matches!(e, Event::Cancel) & none
}
