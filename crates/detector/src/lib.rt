// The foreign detector, some boxes before the scale: the signals that are under way to it.
#![tactic(auto)]

ghost use Rattle.std.specs.Prelude.{◌≡◌};
ghost use Rattle.detector.specs.Foreign.{eight_carried, due, delays_fallen, signalled, foreign_ticked, oldest_used, no_signal, foreign_fit};

use queue::Queue;

#[derive(Clone, Copy)]
pub struct Foreign {
    // the delay left of each, in ticks, 0 to time::LONGEST; the oldest stands first. At 0 it has ended
    pub signals: Queue,
}

impl Foreign {
    #[tactic(auto, unfolding(crate::specs::Foreign::no_signal, crate::specs::Foreign::carrying))]
    pub fn none() -> Foreign
        ensures { result ≡ no_signal }
    {
        Foreign {
            signals: Queue::empty(),
        }
    }

    // As many are carried as can be, ended ones included.
    #[tactic(auto, unfolding(crate::specs::Foreign::eight_carried, crate::specs::Foreign::carried, crate::specs::Foreign::signals_of, queue::specs::Queue::is_full, queue::specs::Queue::waiting))]
    pub fn eight_carried(self) -> bool
        ensures { result ≡ eight_carried self }
    {
        self.signals.is_full()
    }

    // With none carried no place is copied.
    #[tactic(auto, unfolding(crate::specs::Foreign::delays_fallen))]
    fn delays_fallen(self) -> Foreign
        ensures { result ≡ delays_fallen self }
    {
        if self.signals.is_empty() {
            return self;
        }
        let delays = self.signals.taken();
        let mut left = [0u16; Queue::PLACES as usize];
        for (i, delay) in delays.iter().enumerate() {
            left[i] = delay.saturating_sub(1);
        }
        Foreign {
            signals: Queue {
                waits: left,
                n: delays.len() as u64,
            },
        }
    }

    #[tactic(auto, unfolding(crate::specs::Foreign::signalled))]
    fn signalled(self, tf: u64) -> Foreign
        ensures { result ≡ signalled self tf }
    {
        Foreign {
            signals: self.signals.joined(tf),
        }
    }

    // A running tick: all delays fall, then a change 0 to 1 is looked at.
    #[tactic(auto, unfolding(crate::specs::Foreign::foreign_ticked))]
    pub fn ticked(self, rises: bool, tf: u64) -> Foreign
        ensures { result ≡ foreign_ticked self rises tf }
    {
        let next = self.delays_fallen();
        if rises {
            return next.signalled(tf);
        }
        next
    }

    // One has ended: the next verdict is foreign.
    pub fn due(self) -> bool
        ensures { result ≡ due self }
    {
        self.signals.taken().contains(&0)
    }

    // Without the oldest that has ended. Up to that one k is i.
    pub fn used(self) -> Foreign
        ensures { result ≡ oldest_used self }
    {
        let mut left = [0u16; Queue::PLACES as usize];
        let mut k: usize = 0;
        for (i, delay) in self.signals.taken().iter().enumerate() {
            let oldest = (k == i) & (*delay == 0);
            if !oldest {
                left[k] = *delay;
                k += 1;
            }
        }
        Foreign {
            signals: Queue {
                waits: left,
                n: k as u64,
            },
        }
    }

    #[tactic(auto, unfolding(crate::specs::Foreign::foreign_fit))]
    pub fn fit(self) -> bool
        ensures { result ≡ foreign_fit self }
    {
        self.signals.fit(0)
    }
}
