// Bench mode of document 02, T-02: whether the line is armed, and the grosses of its last running ticks. A line in another
// mode keeps none, and then each test of them costs one comparison.
#![tactic(auto)]

ghost use Rattle.std.specs.Prelude.{◌≡◌, true, ◌-ℤ◌};
ghost use Rattle.lists.specs.Each.{all_of};
ghost use Rattle.weight.specs.Weight.{is_weight};
ghost use Rattle.bench.specs.Bench.{fresh_bench, with_armed, begun, pushed, ticked_on, largest_of, smallest_of, steady, detects, disarmed, bench_fit};

use weight::is_weight;

#[derive(Clone, Copy)]
pub struct Bench {
    // 0 if not armed: a number as it comes in, of which each but 0 arms
    pub armed: u64,
    // divisions, the newest first: the first n are kept, the others hold 0 and are not read. There is no heap, and an unfit n
    // comes in and is to be refused
    pub grosses: [i64; Bench::TICKS as usize],
    // 0 to 10
    pub n: u64,
}

// The largest gross less the smallest.
fn apart(grosses: [i64; Bench::TICKS as usize]) -> i64
    requires { all_of is_weight grosses ≡ true }
    ensures { result ≡ largest_of grosses -ℤ smallest_of grosses }
{
    let mut largest = grosses[0];
    let mut smallest = grosses[0];
    for gross in &grosses[1..] {
        largest = largest.max(*gross);
        smallest = smallest.min(*gross);
    }
    largest - smallest
}

impl Bench {
    // how many running ticks are looked at
    pub const TICKS: u64 = 10;

    // by how many divisions their grosses may differ
    pub const APART: i64 = 2;

    // Not armed, and no gross kept.
    #[tactic(auto, unfolding(crate::specs::Bench::keeping))]
    pub fn fresh() -> Bench
        ensures { result ≡ fresh_bench }
    {
        Bench {
            armed: 0,
            grosses: [0i64; Bench::TICKS as usize],
            n: 0,
        }
    }

    fn with_armed(mut self, armed: u64) -> Bench
        ensures { result ≡ with_armed self armed }
    {
        self.armed = armed;
        self
    }

    // An accepted run: from stopped it arms, and the grosses before it are forgotten.
    #[tactic(auto, unfolding(crate::specs::Bench::begun, crate::specs::Bench::keeping))]
    pub fn begun(self, stopped: bool) -> Bench
        ensures { result ≡ begun self stopped }
    {
        Bench::fresh().with_armed(if stopped { 1 } else { self.armed })
    }

    // One gross more; of eleven the oldest is forgotten.
    fn pushed(self, gross: i64) -> Bench
        ensures { result ≡ pushed self gross }
    {
        let n = self.n.min(Bench::TICKS - 1) as usize;
        let mut grosses = [0i64; Bench::TICKS as usize];
        grosses[0] = gross;
        grosses[1..n + 1].copy_from_slice(&self.grosses[..n]);
        Bench {
            armed: self.armed,
            grosses: grosses,
            n: n as u64 + 1,
        }
    }

    // A running tick: its gross is one of the last, and up to nearzero it arms.
    #[tactic(auto, unfolding(crate::specs::Bench::ticked_on))]
    pub fn ticked(self, gross: i64, nearzero: i64) -> Bench
        ensures { result ≡ ticked_on self gross nearzero }
    {
        let next = self.pushed(gross);
        if gross <= nearzero {
            return next.with_armed(1);
        }
        next
    }

    // Ten weights that differ by at most 2 divisions.
    #[tactic(auto, unfolding(crate::specs::Bench::steady))]
    fn steady(self) -> bool
        ensures { result ≡ steady self }
    {
        if self.n != Bench::TICKS {
            return false;
        }
        if !self.fit() {
            return false;
        }
        apart(self.grosses) <= Bench::APART
    }

    // An armed line, the gross above nearzero and lying still: a box.
    #[tactic(auto, unfolding(crate::specs::Bench::detects))]
    pub fn detects(self, gross: i64, nearzero: i64) -> bool
        ensures { result ≡ detects self gross nearzero }
    {
        ((self.armed != 0) & (nearzero < gross)) && self.steady()
    }

    // A detection disarms.
    #[tactic(auto, unfolding(crate::specs::Bench::disarmed))]
    pub fn disarmed(self) -> Bench
        ensures { result ≡ disarmed self }
    {
        self.with_armed(0)
    }

    // At most ten, all weights.
    pub fn fit(self) -> bool
        ensures { result ≡ bench_fit self }
    {
        if Bench::TICKS < self.n {
            return false;
        }
        self.grosses[..self.n as usize]
            .iter()
            .all(|gross| is_weight(*gross))
    }
}
