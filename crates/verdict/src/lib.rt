// The outcomes of a box, by their numbers: 01's verdicts in mask order, and what comes of a box without one.
// They are numbers and no enum: masks have them as bits, the reply as 01's numbers, and a caller may hand in any.
#![tactic(auto)]

ghost use Rattle.std.specs.Prelude.{◌≡◌};
ghost use Rattle.verdict.specs.Verdict.{is_grade, is_verdict};

// The grades, of a net weight under the limits of its code.
pub const LOLO: u64 = 1;

pub const LO: u64 = 2;

pub const OK: u64 = 3;

pub const HI: u64 = 4;

pub const HIHI: u64 = 5;

// The verdicts without a grade.
pub const FOREIGN: u64 = 6;

pub const TWO_ON: u64 = 7;

pub const CRASH: u64 = 8;

// The outcomes that are no verdict.
pub const DISMISSED: u64 = 9;

pub const ABANDONED: u64 = 10;

// LoLo to HiHi.
pub fn is_grade(outcome: u64) -> bool
    ensures { result ≡ is_grade outcome }
{
    (LOLO <= outcome) & (outcome <= HIHI)
}

// LoLo to crash.
pub fn is_verdict(outcome: u64) -> bool
    ensures { result ≡ is_verdict outcome }
{
    (LOLO <= outcome) & (outcome <= CRASH)
}
