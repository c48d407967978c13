// The line's record.
ghost use Rattle.std.specs.Prelude.{◌≡◌};
ghost use Rattle.line.specs.Line.{busy, conveyor, sorter_field, fresh_line, with_status};

use bench::Bench;
use detector::Foreign;
use device::{Sensor, Sorter};
use event::{Done, Last, Setup};
use item::Item;
use part::Part;
use queue::Queue;
use sorters::{all_off, any_sorting, on_bits};
use status::conveyor_runs;
use tally::Tally;

#[derive(Clone, Copy)]
pub struct Line {
    // 0 stopped, 1 running, 2 paused, 3 emergency; a number, as error is, since any line can be lent and an unfit one is refused
    pub status: u64,
    // 0, 1, 2, 5, 6 or 7, or NO_ERROR
    pub error: u64,
    // the active one, 0 to 99
    pub code: u64,
    pub setup: Setup,
    pub sensor: Sensor,
    pub last: Last,
    pub foreign: Foreign,
    pub item: Item,
    // sorter k stands at k - 1
    pub sorters: [Sorter; Setup::SORTERS],
    // the active code's part as before the last verdict, as long as that can be cancelled
    pub undo: Option<Part>,
    pub bench: Bench,
}

impl Line {
    pub const STOPPED: u64 = status::STOPPED;

    pub const RUNNING: u64 = status::RUNNING;

    pub const PAUSED: u64 = status::PAUSED;

    pub const EMERGENCY: u64 = status::EMERGENCY;

    // error none
    pub const NO_ERROR: u64 = Done::NO_ERROR;

    // verdicts that a code's tally takes, and waits that a queue takes
    pub const TALLY_LIMIT: u64 = Tally::LIMIT;

    pub const QUEUE_LIMIT: u64 = Queue::PLACES;

    // timers of a fresh line, in ticks of 10 ms
    pub const TC: u64 = Setup::TC;

    pub const TW: u64 = Setup::TW;

    pub const TA: u64 = Setup::TA;

    pub const TF: u64 = Setup::TF;

    pub const TS: u64 = Setup::TS;

    pub const TO: u64 = Setup::TO;

    #[tactic(auto, unfolding(crate::specs::Line::fresh_line))]
    pub fn fresh() -> Line
        ensures { result ≡ fresh_line }
    {
        Line {
            status: Line::STOPPED,
            error: Line::NO_ERROR,
            code: 0,
            setup: Setup::fresh(),
            sensor: Sensor { level: 0, run: 0 },
            last: Last {
                gross: 0,
                safety: 255,
                foreign: 0,
            },
            foreign: Foreign::none(),
            item: Item::None,
            sorters: all_off(),
            undo: None,
            bench: Bench::fresh(),
        }
    }

    // An item is in hand, a queue isn't empty, or a sorter is on.
    #[tactic(auto, unfolding(crate::specs::Line::busy))]
    pub(crate) fn busy(&self) -> bool
        ensures { result ≡ busy self.now }
    {
        self.item.in_hand() | any_sorting(self.sorters)
    }

    #[tactic(auto, unfolding(crate::specs::Line::conveyor))]
    pub(crate) fn conveyor(&self) -> bool
        ensures { result ≡ conveyor self.now }
    {
        conveyor_runs(self.status, self.setup.mode, self.item.in_hand())
    }

    // The reply's sorter field: while running, which sorters are on.
    #[tactic(auto, unfolding(crate::specs::Line::sorter_field))]
    pub(crate) fn sorter_field(&self) -> u64
        ensures { result ≡ sorter_field self.now }
    {
        if self.status == Line::RUNNING {
            return on_bits(self.sorters);
        }
        0
    }

    pub(crate) fn set_status(&mut self, status: u64, error: u64)
        ensures { self.new ≡ with_status self.old status error }
    {
        self.status = status;
        self.error = error;
    }
}
