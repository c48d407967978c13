// What an event answers.

// The answer to an accepted event: what the line shows after it, and what the event did. The numbers are the words that the
// printed line has for them.
#[derive(Clone, Copy)]
pub struct Done {
    // 0 stopped, 1 running, 2 paused, 3 emergency
    pub status: u64,
    // 0 or 1, as conveyor, detected and tallied
    pub busy: u64,
    pub conveyor: u64,
    // 0 to 63: bit k - 1 for sorter k
    pub sorter: u64,
    pub detected: u64,
    // 0 none, 1 to 8 the verdicts in mask order, 9 dismissed, 10 abandoned
    pub outcome: u64,
    // divisions, 0 unless the outcome is a grade, 1 to 5
    pub net: i64,
    pub tallied: u64,
    // 0, 1, 2, 5, 6 or 7, or NO_ERROR
    pub error: u64,
}

impl Done {
    // error none
    pub const NO_ERROR: u64 = 255;
}

// A refusal, by its number, since the calls beside the line have numbers of their own.
#[derive(Clone, Copy)]
pub struct Refused {
    // 1 to 18
    pub number: u64,
    // the lowest required input that is off, 1 to 8; 0 but for refusal 5
    pub input: u64,
}

pub type Reply = Result<Done, Refused>;
