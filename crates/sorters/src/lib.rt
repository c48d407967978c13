// The six sorters of a line. The rule of one is `device::Sorter`'s; here it is applied to each, with what it is set to.
#![tactic(auto)]

ghost use Rattle.std.specs.Prelude.{◌≡◌, not};
ghost use Rattle.device.specs.Sorter.{sorter_fit};
ghost use Rattle.sorters.specs.OneAlone.{OneAlone};
ghost use Rattle.sorters.specs.Sorters.{ticked_as, entered, blocks, all_off, all_ticked, all_entered, any_blocks, any_sorting, on_bits, all_fit};

use device::Sorter;
use event::{Setup, SorterSetup};

// ---- one sorter

// With nothing waiting, and off, it stays: one test, and no place is copied.
#[tactic(auto, unfolding(crate::specs::Sorters::ticked_as), using(device::proofs::Keeps::idle_stays))]
fn ticked_as(mut sorter: Sorter, setup: SorterSetup) -> Sorter
    ensures { result ≡ ticked_as sorter setup }
{
    if sorter.sorting() {
        sorter = sorter.ticked(setup.to);
    }
    sorter
}

// With its bit in the mask a verdict enters the queue, if fewer than eight wait.
#[tactic(auto, unfolding(crate::specs::Sorters::entered))]
fn entered(sorter: Sorter, setup: SorterSetup, verdict: u64) -> Sorter
    ensures { result ≡ entered verdict sorter setup }
{
    if mask::has(setup.sort, verdict) {
        return sorter.queued(setup.ts);
    }
    sorter
}

// The verdict's bit is in the mask and the queue is full.
#[tactic(auto, unfolding(crate::specs::Sorters::blocks))]
fn blocks(sorter: Sorter, setup: SorterSetup, verdict: u64) -> bool
    ensures { result ≡ blocks verdict sorter setup }
{
    mask::has(setup.sort, verdict) & sorter.full()
}

// One at rest is fit: one test, and no place is read.
#[tactic(auto, using(device::proofs::Keeps::idle_fit))]
fn unfit(sorter: Sorter) -> bool
    ensures { result ≡ not (sorter_fit sorter) }
{
    sorter.sorting() && !sorter.fit()
}

// ---- all six: sorter k stands at k - 1. The setup stands beside them and not with them in one value: it is the line's and stays,
// while they change on every tick.

#[tactic(auto, unfolding(crate::specs::Sorters::all_off))]
pub fn all_off() -> [Sorter; Setup::SORTERS]
    ensures { result ≡ all_off }
{
    [Sorter::off(); Setup::SORTERS]
}

// A running tick. No loop: the six are then kept apart, and those at rest where they are.
pub fn all_ticked(sorters: [Sorter; Setup::SORTERS], setup: Setup) -> [Sorter; Setup::SORTERS]
    ensures { result ≡ all_ticked sorters setup.sorters }
{
    let one = ticked_as(sorters[0], setup.sorters[0]);
    let two = ticked_as(sorters[1], setup.sorters[1]);
    let three = ticked_as(sorters[2], setup.sorters[2]);
    let four = ticked_as(sorters[3], setup.sorters[3]);
    let five = ticked_as(sorters[4], setup.sorters[4]);
    let six = ticked_as(sorters[5], setup.sorters[5]);
    [one, two, three, four, five, six]
}

// A verdict enters the queue of every sorter whose mask has its bit.
pub fn all_entered(
    sorters: [Sorter; Setup::SORTERS],
    setup: Setup,
    verdict: u64,
) -> [Sorter; Setup::SORTERS]
    ensures { result ≡ all_entered verdict sorters setup.sorters }
{
    let mut all = sorters;
    for (i, setup) in setup.sorters.iter().enumerate() {
        all[i] = entered(all[i], *setup, verdict);
    }
    all
}

// One of those queues is full.
pub fn any_blocks(sorters: [Sorter; Setup::SORTERS], setup: Setup, verdict: u64) -> bool
    ensures { result ≡ any_blocks verdict sorters setup.sorters }
{
    sorters
        .iter()
        .zip(&setup.sorters)
        .any(|(sorter, setup)| blocks(*sorter, *setup, verdict))
}

// Something waits at one of them, or one is on. No early end: a reply is made on every event, and straight code is inlined.
#[tactic(auto, unfolding(crate::specs::Sorters::any_sorting), using(crate::proofs::Found::one_tested, crate::proofs::Found::all_tested))]
pub fn any_sorting(sorters: [Sorter; Setup::SORTERS]) -> bool
    ensures { result ≡ any_sorting sorters }
{
    let mut found = false;
    for sorter in &sorters {
        found |= sorter.sorting();
    }
    found
}

// Which are on: bit k - 1 for sorter k, from the last to the first.
pub fn on_bits(sorters: [Sorter; Setup::SORTERS]) -> u64
    ensures { result ≡ on_bits sorters }
{
    let mut bits: u64 = 0;
    for sorter in sorters.iter().rev() {
        bits = u64::from(0 < sorter.on) + 2 * bits;
    }
    bits
}

pub fn all_fit(sorters: [Sorter; Setup::SORTERS]) -> bool
    ensures { result ≡ all_fit sorters }
{
    sorters.iter().all(|sorter| !unfit(*sorter))
}

// One sorter, with the masks of the others 0 and the others off, does what the one sorter of 01 did.
#[tactic(auto, using(crate::proofs::Alone::one_of_six))]
pub fn one_alone()
    ensures { OneAlone }
{}
