// The memory of a call: its samples stand in a memory of PLACES numbers, with how many there are beside, since there is no heap.
ghost use Rattle.std.proofs.Props.{props};
ghost use Rattle.margin.specs.Memory.{Holds};

use event::Stored;
use possible::MOST_SAMPLES;

// Of samples that are too many one over the most is kept: they are refused whatever follows.
const PLACES: usize = MOST_SAMPLES + 1;

// The call that is being read. Its samples are the first `count` numbers of the memory.
#[derive(Clone, Copy)]
pub(crate) struct Call {
    // the margin, in divisions
    pub(crate) e: u64,
    // its code and settings, once they came
    pub(crate) stored: Option<Stored>,
    pub(crate) count: usize,
}

// The call, if one has begun, with the memory of its samples.
#[derive(Drop)]
pub(crate) struct Session {
    pub(crate) call: Option<Call>,
    pub(crate) samples: [i64; PLACES],
    ghost holds: { Holds call samples } by { Prim.hlevel props },
}
