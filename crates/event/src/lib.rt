// The twelve kinds of event, and which values of their fields are refused 2 (range) or 4 (contradiction).
// The fields are wide enough to carry values out of range.
#![tactic(auto)]

ghost use Rattle.std.specs.Prelude.{◌≡◌};
ghost use Rattle.lists.specs.Each.{all_of};
ghost use Rattle.event.specs.Setup.{fresh_setup, sorter_ranged, sorters_ranged, sorts_nothing, setup_ranged, edge_agrees, masks_agree, setup_agrees, setup_fit};
ghost use Rattle.event.specs.Sample.{sample_ranged};
ghost use Rattle.event.specs.Event.{event_ranged, event_agrees};
ghost use Rattle.event.specs.Kind.{kind_of};

mod last;
mod reply;

pub use last::Last;
pub use reply::{Done, Refused, Reply};
use settings::{Settings, is_code};
use time::LONGEST;
use weight::is_weight;

// What one of the six sorters is set to: its wait ts and its on-time to, in ticks of 10 ms, 1 to 9,999; and the mask of the
// verdicts that enter its queue, 0 to 255 with bit 0 clear.
#[derive(Clone, Copy)]
pub struct SorterSetup {
    pub ts: u64,
    pub to: u64,
    pub sort: u64,
}

// What stopped status lets one set up: timers are in ticks of 10 ms, 0 or 1 to 9,999; masks are 0 to 255.
#[derive(Clone, Copy)]
pub struct Setup {
    // 1 in through, 2 stop, 4 bench
    pub mode: u64,
    // 1 off to on, 2 on to off
    pub edge: u64,
    pub tc: u64,
    pub tw: u64,
    pub ta: u64,
    pub tf: u64,
    // sorter k at k - 1
    pub sorters: [SorterSetup; Setup::SORTERS],
    pub stop: u64,
    pub need: u64,
}

// What the inputs say on one tick: levels are 0 or 1, safety has input k as bit k - 1.
#[derive(Clone, Copy)]
pub struct Sample {
    // divisions, a weight
    pub gross: i64,
    pub sensor: u64,
    pub emergency: u64,
    pub safety: u64,
    pub foreign: u64,
}

// A record, and the code that it is stored at.
#[derive(Clone, Copy)]
pub struct Stored {
    // 0 to 99 where it is accepted
    pub code: u64,
    pub settings: Settings,
}

#[derive(Clone, Copy)]
pub enum Event {
    Sample(Sample),
    Run,
    Stop,
    Emergency,
    Recall(u64),
    Cancel,
    ClearCode(u64),
    ClearAll,
    ErrorReset,
    NoOperation,
    Setup(Setup),
    Store(Stored),
}

// The kinds, in 01's order.
#[derive(Clone, Copy, PartialEq, Eq)]
pub enum Kind {
    Sample,
    Run,
    Stop,
    Emergency,
    Recall,
    Cancel,
    ClearCode,
    ClearAll,
    ErrorReset,
    NoOperation,
    Setup,
    Store,
}

impl SorterSetup {
    #[tactic(auto, unfolding(crate::specs::Setup::sorter_ranged))]
    pub fn ranged(self) -> bool
        ensures { result ≡ sorter_ranged self }
    {
        ((1 <= self.ts) & (self.ts <= LONGEST))
            & ((1 <= self.to) & (self.to <= LONGEST))
            & (self.sort <= 255)
            & (self.sort % 2 == 0)
    }
}

impl Setup {
    // mode 4, bench
    pub const BENCH: u64 = 4;

    // how many sorters a line has
    pub const SORTERS: usize = 6;

    // timers of a fresh line, in ticks of 10 ms
    pub const TC: u64 = 0;

    pub const TW: u64 = 72;

    pub const TA: u64 = 35;

    pub const TF: u64 = 0;

    pub const TS: u64 = 100;

    pub const TO: u64 = 50;

    pub fn fresh() -> Setup
        ensures { result ≡ fresh_setup }
    {
        let sorter = SorterSetup {
            ts: Setup::TS,
            to: Setup::TO,
            sort: 0,
        };
        Setup {
            mode: 1,
            edge: 2,
            tc: Setup::TC,
            tw: Setup::TW,
            ta: Setup::TA,
            tf: Setup::TF,
            sorters: [sorter; Setup::SORTERS],
            stop: 0,
            need: 0,
        }
    }

    // No early end, as measured: every event tests them, and straight code is inlined.
    #[tactic(auto, unfolding(crate::specs::Setup::sorters_ranged), using(crate::proofs::Tests::one_tested, crate::proofs::Tests::all_tested))]
    fn sorters_ranged(self) -> bool
        ensures { result ≡ sorters_ranged self }
    {
        let mut ranged = true;
        for sorter in &self.sorters {
            ranged &= sorter.ranged();
        }
        ranged
    }

    #[tactic(auto, unfolding(crate::specs::Setup::setup_ranged))]
    pub fn ranged(self) -> bool
        ensures { result ≡ setup_ranged self }
    {
        (((1 <= self.mode) & (self.mode <= 2)) | (self.mode == Setup::BENCH))
            & ((1 <= self.edge) & (self.edge <= 2))
            & (self.tc <= LONGEST)
            & (self.tw <= LONGEST)
            & (self.tf <= LONGEST)
            & ((1 <= self.ta) & (self.ta <= LONGEST))
            & self.sorters_ranged()
            & (self.stop <= 255)
            & (self.need <= 255)
    }

    // Mode 2 needs edge 2.
    #[tactic(auto, unfolding(crate::specs::Setup::edge_agrees))]
    fn edge_agrees(self) -> bool
        ensures { result ≡ edge_agrees self }
    {
        !((self.mode == 2) & (self.edge == 1))
    }

    // Every sort mask is 0.
    #[tactic(auto, using(crate::proofs::Tests::one_tested, crate::proofs::Tests::all_tested))]
    fn sorts_nothing(self) -> bool
        ensures { result ≡ all_of sorts_nothing self.sorters }
    {
        let mut nothing = true;
        for setup in &self.sorters {
            nothing &= setup.sort == 0;
        }
        nothing
    }

    // Mode 4 needs sort masks of 0.
    #[tactic(auto, unfolding(crate::specs::Setup::masks_agree))]
    fn masks_agree(self) -> bool
        ensures { result ≡ masks_agree self }
    {
        (self.mode != Setup::BENCH) | self.sorts_nothing()
    }

    // No field contradicts another.
    #[tactic(auto, unfolding(crate::specs::Setup::setup_agrees))]
    pub fn agrees(self) -> bool
        ensures { result ≡ setup_agrees self }
    {
        self.edge_agrees() & self.masks_agree()
    }

    pub fn fit(self) -> bool
        ensures { result ≡ setup_fit self }
    {
        self.ranged() & self.agrees()
    }
}

impl Sample {
    #[tactic(auto, unfolding(crate::specs::Sample::sample_ranged))]
    pub fn ranged(self) -> bool
        ensures { result ≡ sample_ranged self }
    {
        (self.sensor <= 1)
            & (self.emergency <= 1)
            & (self.foreign <= 1)
            & (self.safety <= 255)
            & is_weight(self.gross)
    }
}

impl Event {
    pub fn kind(self) -> Kind
        ensures { result ≡ kind_of self }
    {
        match self {
            Event::Sample(_) => Kind::Sample,
            Event::Run => Kind::Run,
            Event::Stop => Kind::Stop,
            Event::Emergency => Kind::Emergency,
            Event::Recall(_) => Kind::Recall,
            Event::Cancel => Kind::Cancel,
            Event::ClearCode(_) => Kind::ClearCode,
            Event::ClearAll => Kind::ClearAll,
            Event::ErrorReset => Kind::ErrorReset,
            Event::NoOperation => Kind::NoOperation,
            Event::Setup(_) => Kind::Setup,
            Event::Store(_) => Kind::Store,
        }
    }

    // No field is out of range.
    #[tactic(auto, unfolding(crate::specs::Event::event_ranged))]
    pub fn ranged(self) -> bool
        ensures { result ≡ event_ranged self }
    {
        match self {
            Event::Sample(s) => s.ranged(),
            Event::Recall(c) | Event::ClearCode(c) => is_code(c),
            Event::Setup(s) => s.ranged(),
            Event::Store(s) => is_code(s.code) & s.settings.ranged(),
            _ => true,
        }
    }

    // No field contradicts another.
    #[tactic(auto, unfolding(crate::specs::Event::event_agrees))]
    pub fn agrees(self) -> bool
        ensures { result ≡ event_agrees self }
    {
        match self {
            Event::Setup(s) => s.agrees(),
            Event::Store(s) => s.settings.ordered(),
            _ => true,
        }
    }
}
