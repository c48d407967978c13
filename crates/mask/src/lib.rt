// The masks of a setup: which verdicts sort or stop, which safety inputs are required.
#![tactic(auto)]

ghost use Rattle.std.specs.Prelude.{◌≡◌};
ghost use Rattle.mask.specs.Bits.{marked, lowest_off};

// Whether a mask has the bit of this verdict, 1 (LoLo, bit 7) to 8 (crash, bit 0).
#[tactic(auto, unfolding(crate::specs::Bits::marked))]
pub fn has(mask: u64, verdict: u64) -> bool
    ensures { result ≡ marked mask verdict }
{
    (1..=8).contains(&verdict) && (mask >> (8 - verdict)) % 2 == 1
}

// The number of the lowest required input that is off, 0 where none is: a number and no Option, since the reply prints it so.
#[tactic(auto, using(crate::proofs::Lowest::none_off, crate::proofs::Lowest::some_off))]
pub fn lowest_off(need: u64, safety: u64) -> u64
    ensures { result ≡ lowest_off need safety }
{
    let off = (need % 256) as u8 & !((safety % 256) as u8);
    if off == 0 {
        return 0;
    }
    u64::from(off.trailing_zeros()) + 1
}
