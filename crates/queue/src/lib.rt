// A queue of waits: the first n places are taken, in the order in which the waits came. The others hold 0 and are not read.
// A wait is a time, so sixteen bits hold it. Places and a number beside them, since there is no heap, and an unfit number comes
// in and is to be refused.
#![tactic(auto)]

ghost use Rattle.std.specs.Prelude.{◌≡◌, []};
ghost use Rattle.laws.specs.Choice.{within};
ghost use Rattle.time.specs.Time.{longest};
ghost use Rattle.queue.specs.Queue.{waits_of, laid, waiting, is_empty, is_full, queue_ticked, joined, queue_fit};

use time::{LONGEST, is_time};

#[derive(Clone, Copy)]
pub struct Queue {
    pub waits: [u16; Queue::PLACES as usize],
    pub n: u64,
}

// A wait of so many ticks ends on this one.
const LAST_TICK: u16 = 1;

// From the shortest to the longest time.
fn within(wait: u16, shortest: u64) -> bool
    ensures { result ≡ within shortest longest wait }
{
    let wait = u64::from(wait);
    (shortest <= wait) & (wait <= LONGEST)
}

impl Queue {
    // how many waits it takes
    pub const PLACES: u64 = 8;

    #[tactic(auto, unfolding(crate::specs::Queue::laid))]
    pub fn empty() -> Queue
        ensures { result ≡ laid [] }
    {
        Queue {
            waits: [0u16; Queue::PLACES as usize],
            n: 0,
        }
    }

    #[tactic(auto, using(crate::proofs::Waits::empty_is))]
    pub fn is_empty(self) -> bool
        ensures { result ≡ is_empty self }
    {
        self.n == 0
    }

    // How many wait: of an unfit n no more than there are places.
    #[tactic(auto, using(crate::proofs::Waits::waiting_is))]
    pub fn waiting(self) -> u64
        ensures { result ≡ waiting self }
    {
        self.n.min(Queue::PLACES)
    }

    // The waits.
    #[tactic(auto, using(crate::proofs::Waits::waiting_is, crate::proofs::Waits::waits_counted))]
    pub fn taken(&self) -> &[u16]
        ensures { result.now ≡ waits_of self.now }
    {
        &self.waits[..self.waiting() as usize]
    }

    #[tactic(auto, using(crate::proofs::Waits::full_is))]
    pub fn is_full(self) -> bool
        ensures { result ≡ is_full self }
    {
        Queue::PLACES <= self.n
    }

    // A running tick: each wait falls, and one that reaches 0 leaves.
    pub fn ticked(self) -> Queue
        ensures { result ≡ queue_ticked self }
    {
        if self.is_empty() {
            return self;
        }
        let mut left = [0u16; Queue::PLACES as usize];
        let mut k: usize = 0;
        for wait in self.taken() {
            if LAST_TICK < *wait {
                left[k] = *wait - 1;
                k += 1;
            }
        }
        Queue {
            waits: left,
            n: k as u64,
        }
    }

    // One more wait, put last; a full queue takes none, and what is no time is none.
    pub fn joined(self, ts: u64) -> Queue
        ensures { result ≡ joined self ts }
    {
        if self.is_full() | !is_time(ts) {
            return self;
        }
        let waits = self.taken();
        let n = waits.len();
        let mut all = [0u16; Queue::PLACES as usize];
        all[..n].copy_from_slice(waits);
        all[n] = ts as u16;
        Queue {
            waits: all,
            n: n as u64 + 1,
        }
    }

    // No more than there are places, each from the shortest to the longest time.
    pub fn fit(self, shortest: u64) -> bool
        ensures { result ≡ queue_fit self shortest }
    {
        if Queue::PLACES < self.n {
            return false;
        }
        self.taken().iter().all(|wait| within(*wait, shortest))
    }
}
