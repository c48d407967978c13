// The exit eye against the verdicts: document 02, T-13.
//
// Packers fit an eye behind the sorter and keep its ticks. `pair_exits` gives the sorted verdicts and the eye's signals a
// largest pairing. It reads two lists and writes one lent buffer; no line, settings or tally is in its reach.
#![tactic(auto)]

ghost use Rattle.std.specs.Prelude.{◌≡◌, true, ◌*◌, ◌≤◌, length, None, Some, MatchResult};
ghost use Rattle.time.specs.Time.{longest};
ghost use Rattle.pairing.specs.Answer.{in_order, ticks_fit, number_of, refusal_of, Answered};
ghost use Rattle.pairing.specs.Sweep.{Filled};

// A list has at most so many ticks.
pub const LONGEST_LIST: usize = 4_096;

// A tick is at most this.
pub const LAST_TICK: u64 = 1_000_000_000;

// Why a call is refused, in the order of its conditions: a list that does not rise or is too long, a tick too large, the window, a
// buffer shorter than twice the verdict list.
#[derive(Clone, Copy, PartialEq, Eq)]
pub enum Refusal {
    Order,
    Value,
    Window,
    Pairs,
}

impl Refusal {
    // The number that is printed: 2, or one of 16 to 18, which are this call's alone.
    pub fn number(self) -> u64
        ensures { result ≡ number_of self }
    {
        match self {
            Refusal::Order => 16,
            Refusal::Value => refusal::Refusal::Value.number(),
            Refusal::Window => 17,
            Refusal::Pairs => 18,
        }
    }
}

// How many verdicts have a signal, how many have none, and how many signals have no verdict: each 0 to LONGEST_LIST.
#[derive(Clone, Copy)]
pub struct Counts {
    pub pairs: u64,
    pub missing: u64,
    pub extra: u64,
}

// Verdict v and signal t are paired only if v + a <= t <= v + b. The pairs go to the front of the buffer, verdict tick then
// signal tick, in rising order of verdict tick; what stands behind them stays. Which largest pairing it is is free. A refused
// call writes nothing.
#[tactic(auto, using(crate::proofs::Accepted::accepted))]
pub fn pair_exits(
    verdicts: &[u64],
    signals: &[u64],
    a: u64,
    b: u64,
    pairs: &mut [u64],
) -> Result<Counts, Refusal>
    ensures { Answered verdicts.now signals.now a b pairs.old pairs.new result }
{
    accept(verdicts, signals, a, b, pairs.len())?;
    let k = fill(verdicts, signals, a, b, pairs);
    Ok(Counts {
        pairs: k as u64,
        missing: (verdicts.len() - k) as u64,
        extra: (signals.len() - k) as u64,
    })
}

// The first condition that holds refuses.
#[tactic(auto, unfolding(crate::specs::Answer::refusal_of))]
fn accept(verdicts: &[u64], signals: &[u64], a: u64, b: u64, room: usize) -> Result<(), Refusal>
    ensures { MatchResult result (λ _. refusal_of verdicts.now signals.now a b room ≡ None) (λ r. refusal_of verdicts.now signals.now a b room ≡ Some r) }
{
    if !(in_order(verdicts) & in_order(signals)) {
        return Err(Refusal::Order);
    }
    if !(ticks_fit(verdicts) & ticks_fit(signals)) {
        return Err(Refusal::Value);
    }
    if !((a <= b) & (b <= time::LONGEST)) {
        return Err(Refusal::Window);
    }
    if room < 2 * verdicts.len() {
        return Err(Refusal::Pairs);
    }
    Ok(())
}

// Each tick is below the next, and the list is not too long.
fn in_order(l: &[u64]) -> bool
    ensures { result ≡ in_order l.now }
{
    (l.len() <= LONGEST_LIST) & l.is_sorted_by(|x, y| *x < *y)
}

fn ticks_fit(l: &[u64]) -> bool
    ensures { result ≡ ticks_fit l.now }
{
    l.iter().all(|t| *t <= LAST_TICK)
}

// Of the earliest verdict left and the earliest signal left one has no partner, or they are a pair. Each pass goes past one of
// them or both, so that the time is linear in the two lists. Two places go on by turns, which no iterator says more plainly.
// A pair is two numbers of the buffer, since document 02 counts the buffer in numbers.
#[tactic(auto, using(crate::proofs::Filling::filling))]
fn fill(verdicts: &[u64], signals: &[u64], a: u64, b: u64, pairs: &mut [u64]) -> usize
    requires { (ticks_fit verdicts.now ≡ true) × (a ≤ b) × (b ≤ longest) × (2 * length verdicts.now ≤ length pairs.old) }
    ensures { Filled verdicts.now signals.now a b pairs.old pairs.new result }
{
    let mut i = 0;
    let mut j = 0;
    let mut k = 0;
    while i < verdicts.len() {
        if signals.len() <= j {
            return k;
        }
        let v = verdicts[i];
        let t = signals[j];
        if t < v + a {
            j += 1;
            continue;
        }
        if v + b < t {
            i += 1;
            continue;
        }
        pairs[2 * k] = v;
        pairs[2 * k + 1] = t;
        i += 1;
        j += 1;
        k += 1;
    }
    k
}
