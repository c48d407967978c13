// The refusals, in the order of the table: the first condition that holds refuses.
#![tactic(auto)]

ghost use Rattle.std.specs.Prelude.{◌≡◌};
ghost use Rattle.refusal.specs.Table.{first_holding, number_of, table};

mod rows;

pub use rows::{
    lengths_wrong, nothing_to_cancel, reads_record, reads_tally, refused_in_emergency,
    refused_paused, refused_running, run_occupied, run_unsafe,
};

// The rows of the table, in its order.
#[derive(Clone, Copy, PartialEq, Eq)]
pub enum Refusal {
    Memory,
    Form,
    Value,
    Status,
    Emergency,
    Paused,
    Contradiction,
    Safety,
    Occupied,
    Nothing,
}

// Which conditions of the table hold.
#[derive(Clone, Copy)]
pub struct Faults {
    pub memory: bool,
    pub form: bool,
    pub value: bool,
    pub running: bool,
    pub emergency: bool,
    pub paused: bool,
    pub contradiction: bool,
    pub safety: bool,
    pub occupied: bool,
    pub nothing: bool,
}

impl Refusal {
    // The number that a reply shows, 1 to 10.
    pub fn number(self) -> u64
        ensures { result ≡ number_of self }
    {
        match self {
            Refusal::Memory => 8,
            Refusal::Form => 1,
            Refusal::Value => 2,
            Refusal::Status => 3,
            Refusal::Emergency => 9,
            Refusal::Paused => 10,
            Refusal::Contradiction => 4,
            Refusal::Safety => 5,
            Refusal::Occupied => 6,
            Refusal::Nothing => 7,
        }
    }
}

impl Faults {
    // 01's table, row by row in its order.
    pub fn first(self) -> Option<Refusal>
        ensures { result ≡ first_holding (table self) }
    {
        if self.memory {
            return Some(Refusal::Memory);
        }
        if self.form {
            return Some(Refusal::Form);
        }
        if self.value {
            return Some(Refusal::Value);
        }
        if self.running {
            return Some(Refusal::Status);
        }
        if self.emergency {
            return Some(Refusal::Emergency);
        }
        if self.paused {
            return Some(Refusal::Paused);
        }
        if self.contradiction {
            return Some(Refusal::Contradiction);
        }
        if self.safety {
            return Some(Refusal::Safety);
        }
        if self.occupied {
            return Some(Refusal::Occupied);
        }
        if self.nothing {
            return Some(Refusal::Nothing);
        }
        None
    }
}
