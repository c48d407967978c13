// The controller of a belt checkweigher.
//
// A `Line` is the belt's state. The caller owns it and two memories, and lends all three to each call: the settings, a
// hundred records, one for each code, and the tallies, 3,400 numbers, 34 for each code: its tally and its 21 class counts.
// Fresh memory is all zeros.
//
//     let mut records = [Settings::blank(); 100];
//     let mut tallies = [0i64; 3400];
//     let mut line = Line::fresh();
//
// `Line::advance` is one event: a sample of the sensors every 10 ms, a command, a setup or a store.
//
//     match line.advance(&mut records, &mut tallies, Event::Run) {
//         Ok(done) => ..             what the line shows now, and what the event did
//         Err(refused) => ..         nothing has changed
//     }
//
// `Line::apply` does the same on a line that it takes by value. Its `Step` has the next line, the reply, and as `storing`
// the settings record that the event replaced, if any. A `Plant` is a line that owns its records:
//
//     let turned = Plant::fresh().turn(&mut tallies, Event::Run);
//
// Whoever runs its events so, one after another, is after each of them where the claim over every list of events says.
//
// It refuses with the `number` of the first condition that holds: 8 memory of a wrong length or unfit, 2 a field out of range,
// then why the status does not allow the event: 3 the line is running, 9 it is in emergency, 10 it is paused; 4 a
// contradiction, 5 a required safety input off (`input` says which), 6 run with a box on the scale, 7 nothing to cancel.
//
// `report` is a code's sheet; the memories are only read. It refuses 8, memory, and 2, a code out of range.
//
// `serve` is either as a line of text, answered as text behind what stands in `out` up to `at`. Text that is neither is
// refused 1. No answer is longer than `ANSWER_ROOM` bytes; where `out` has less behind `at` (`no_room`), nothing is done and
// nothing has changed: it hands back `None`, and the caller calls again with room. Else it hands back where the answers end.
//
// No call has a condition that its caller must see to.
#![tactic(auto)]

ghost use Rattle.std.specs.Prelude.{◌≡◌};
ghost use Rattle.line.specs.State.{state};
ghost use Rattle.text.specs.Read.{read_line};
ghost use Rattle.controller.specs.Serve.{serving};

mod answer;

pub use answer::{ANSWER_ROOM, no_room};
use answer::{put_refused, put_report};
pub use event::{Done, Event, Kind, Refused, Reply, Sample, Setup, SorterSetup, Stored};
pub use line::{Line, Step};
use print::reply_line;
pub use refusal::Refusal;
pub use replay::{Plant, Turned};
pub use settings::Settings;
pub use sheet::{Sheet, report};
pub use tally::Counts;
use text::Read;

// One line of text: what it says goes through the line, the records and the tallies, and the answer is written to `out` from
// `at` on. It hands back where the answers end then. Where there is too little room nothing is done.
pub fn serve(
    line: &mut Line,
    records: &mut [Settings],
    tallies: &mut [i64],
    text: &[u8],
    out: &mut [u8],
    at: usize,
) -> Option<usize>
    ensures answer { result ≡ (serving (state line.old records.old tallies.old) (read_line text.now) out.old at).at }
    ensures line { line.new ≡ (serving (state line.old records.old tallies.old) (read_line text.now) out.old at).state.line }
    ensures settings { records.new ≡ (serving (state line.old records.old tallies.old) (read_line text.now) out.old at).state.settings }
    ensures memory { tallies.new ≡ (serving (state line.old records.old tallies.old) (read_line text.now) out.old at).state.tallies }
    ensures output { out.new ≡ (serving (state line.old records.old tallies.old) (read_line text.now) out.old at).out }
{
    if no_room(out.len(), at) {
        return None;
    }
    let free = &mut out[at..];
    let Some(said) = text::read_line(text) else {
        return Some(at + put_refused(free, records.len(), tallies));
    };
    match said {
        Read::Event(e) => {
            let reply = line.advance(records, tallies, e);
            Some(at + reply_line(free, reply))
        }
        Read::Report(code) => {
            let report = sheet::report(records, tallies, code);
            Some(at + put_report(free, code, report))
        }
    }
}
