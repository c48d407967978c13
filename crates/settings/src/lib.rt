// A code's settings: its limits, the tare, and the grade of a net weight under them.
#![tactic(auto)]

ghost use Rattle.std.specs.Prelude.{◌≡◌};
ghost use Rattle.settings.specs.Settings.{is_code, all_there, is_load, record_ranged, limits_ordered, record_fit, blank};
ghost use Rattle.settings.specs.Grade.{grade_of};

use weight::is_weight;

// Codes are 0 to 99, each with a settings record of its own.
pub const LAST_CODE: u64 = 99;

pub const RECORDS: u64 = 100;

pub fn is_code(code: u64) -> bool
    ensures { result ≡ is_code code }
{
    code <= LAST_CODE
}

// So many records are there: one for each code.
pub fn all_there(count: u64) -> bool
    ensures { result ≡ all_there count }
{
    count == RECORDS
}

// A code's settings, in divisions: nearzero and tare are 0 to 999,999, the others weights.
#[derive(Clone, Copy)]
pub struct Settings {
    pub target: i64,
    pub lolo: i64,
    pub lo: i64,
    pub hi: i64,
    pub hihi: i64,
    pub nearzero: i64,
    pub tare: i64,
}

// 0 to 999,999
fn is_load(x: i64) -> bool
    ensures { result ≡ is_load x }
{
    (0 <= x) & is_weight(x)
}

impl Settings {
    // A record of fresh memory.
    pub fn blank() -> Settings
        ensures { result ≡ blank }
    {
        Settings {
            target: 0,
            lolo: 0,
            lo: 0,
            hi: 0,
            hihi: 0,
            nearzero: 0,
            tare: 0,
        }
    }

    pub fn ranged(self) -> bool
        ensures { result ≡ record_ranged self }
    {
        is_weight(self.target)
            & is_weight(self.lolo)
            & is_weight(self.lo)
            & is_weight(self.hi)
            & is_weight(self.hihi)
            & is_load(self.nearzero)
            & is_load(self.tare)
    }

    #[tactic(auto, unfolding(crate::specs::Settings::limits_ordered))]
    pub fn ordered(self) -> bool
        ensures { result ≡ limits_ordered self }
    {
        (self.lolo <= self.lo)
            & (self.lo <= self.target)
            & (self.target <= self.hi)
            & (self.hi <= self.hihi)
    }

    pub fn fit(self) -> bool
        ensures { result ≡ record_fit self }
    {
        self.ranged() & self.ordered()
    }

    // The verdict of a net weight in divisions, LoLo to HiHi.
    #[tactic(auto, unfolding(crate::specs::Grade::grade_of))]
    pub fn grade(self, net: i64) -> u64
        ensures { result ≡ grade_of self net }
    {
        if net < self.lolo {
            return verdict::LOLO;
        }
        if net < self.lo {
            return verdict::LO;
        }
        if net <= self.hi {
            return verdict::OK;
        }
        if net <= self.hihi {
            return verdict::HI;
        }
        verdict::HIHI
    }
}
