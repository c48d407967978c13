// The sorter: the queue of waits, and the on-time.
ghost use Rattle.std.specs.Prelude.{◌≡◌};
ghost use Rattle.device.specs.Sorter.{full, sorting, sorter_ticked, queued, sorter_off, sorter_fit};

use queue::Queue;
use time::{fallen, is_time};

#[derive(Clone, Copy)]
pub struct Sorter {
    pub queue: Queue,
    // on-time left, in ticks of 10 ms, 0 to 9,999
    pub on: u64,
}

impl Sorter {
    #[tactic(auto, unfolding(crate::specs::Sorter::sorter_off))]
    pub fn off() -> Sorter
        ensures { result ≡ sorter_off }
    {
        Sorter {
            queue: Queue::empty(),
            on: 0,
        }
    }

    // The queue holds as many as it can.
    #[tactic(auto, unfolding(crate::specs::Sorter::full))]
    pub fn full(self) -> bool
        ensures { result ≡ full self }
    {
        self.queue.is_full()
    }

    // Something waits, or the sorter is on.
    #[tactic(auto, unfolding(crate::specs::Sorter::sorting))]
    pub fn sorting(self) -> bool
        ensures { result ≡ sorting self }
    {
        !self.queue.is_empty() | (0 < self.on)
    }

    // A running tick: all times fall, and a wait that ends puts the sorter on for `to`. With an empty queue only the on-time
    // falls: the places are not copied.
    #[tactic(auto, unfolding(crate::specs::Sorter::sorter_ticked), using(queue::proofs::Waits::empty_stays, queue::proofs::Waits::none_ends))]
    pub fn ticked(mut self, to: u64) -> Sorter
        ensures { result ≡ sorter_ticked self to }
    {
        if self.queue.is_empty() {
            self.on = fallen(self.on);
            return self;
        }
        self.waits_ticked(to)
    }

    // A wait ends where fewer wait than before.
    #[tactic(auto, unfolding(crate::specs::Sorter::sorter_ticked), using(queue::proofs::Waits::ends_fewer))]
    fn waits_ticked(self, to: u64) -> Sorter
        ensures { result ≡ sorter_ticked self to }
    {
        let next = self.queue.ticked();
        if next.waiting() < self.queue.waiting() {
            return Sorter {
                queue: next,
                on: to,
            };
        }
        Sorter {
            queue: next,
            on: fallen(self.on),
        }
    }

    #[tactic(auto, unfolding(crate::specs::Sorter::queued))]
    pub fn queued(self, ts: u64) -> Sorter
        ensures { result ≡ queued self ts }
    {
        Sorter {
            queue: self.queue.joined(ts),
            on: self.on,
        }
    }

    #[tactic(auto, unfolding(crate::specs::Sorter::sorter_fit))]
    pub fn fit(self) -> bool
        ensures { result ≡ sorter_fit self }
    {
        self.queue.fit(1) & is_time(self.on)
    }
}
