// The memories of a call: its lists stand in memories of PLACES numbers each, with how many there are beside, since there is no
// heap.
ghost use Rattle.std.proofs.Props.{props};
ghost use Rattle.exits.specs.Memory.{Holds};

use pairing::LONGEST_LIST;

// Of a list that is too long one tick over the longest is kept: it is refused whatever follows.
const PLACES: usize = LONGEST_LIST + 1;

// The call that is being read. Its lists are the first `verdicts` and the first `signals` numbers of the memories.
#[derive(Clone, Copy)]
pub(crate) struct Call {
    // a tick came that 64 bits do not hold: the call is refused, whatever its lists are
    pub(crate) wide: bool,
    pub(crate) a: u64,
    pub(crate) b: u64,
    pub(crate) verdicts: usize,
    pub(crate) signals: usize,
}

// The memories: the call, if one has begun, the ticks of its lists, and the buffer that a call is lent for its pairs.
#[derive(Drop)]
pub(crate) struct Session {
    pub(crate) call: Option<Call>,
    pub(crate) verdicts: [u64; PLACES],
    pub(crate) signals: [u64; PLACES],
    pub(crate) pairs: [u64; 2 * PLACES],
    ghost holds: { Holds call verdicts signals pairs } by { Prim.hlevel props },
}
