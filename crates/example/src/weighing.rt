// One box weighed on a fresh line, and the sheet of its code.
ghost use Rattle.std.specs.Prelude.{◌≡◌, ◌≤◌, length, take};
ghost use Rattle.event.specs.declared.Event.TheVariants as event;
ghost use Rattle.claim.specs.Example.{events};
ghost use Rattle.print.specs.Sheet.{sheet_text};
ghost use Rattle.example.specs.Sheet.{sheet};

use controller::{ANSWER_ROOM, Event, Line, Sample, Settings, Setup, SorterSetup, Stored, report};
use print::sheet_lines;

// A sample, every 10 ms: gross in divisions, the sensor is covered, and all eight safety inputs are on.
fn sample(gross: i64) -> Event
    ensures { result ≡ event.Sample (record { gross = gross; sensor = 1; emergency = 0; safety = 255; foreign = 0 }) }
{
    Event::Sample(Sample {
        gross,
        sensor: 1,
        emergency: 0,
        safety: 255,
        foreign: 0,
    })
}

// What the controller is told, in turn.
fn told() -> [Event; 7]
    ensures { result ≡ events }
{
    let sorter = SorterSetup {
        ts: 1,
        to: 1,
        sort: 0,
    };
    // a box is seen when the sensor goes on, and the two ticks behind that are averaged; nothing is sorted out
    let setup = Setup {
        edge: 1,
        tw: 0,
        ta: 2,
        sorters: [sorter; Setup::SORTERS],
        ..Setup::fresh()
    };
    // 1,000 divisions are wanted, and 990 to 1,010 are OK
    let settings = Settings {
        target: 1000,
        lolo: 900,
        lo: 990,
        hi: 1010,
        hihi: 1100,
        nearzero: 100,
        tare: 0,
    };
    [
        Event::Setup(setup),
        Event::Store(Stored { code: 0, settings }),
        Event::Run,
        sample(500),
        sample(1003),
        sample(1004),
        // refused: there is no such code
        Event::ClearCode(100),
    ]
}

// The sheet of code 0 to the front of `out`, and its length.
pub(crate) fn print_one_box(out: &mut [u8; ANSWER_ROOM]) -> usize
    ensures sheet { take result out.new ≡ sheet_text 0 sheet }
    ensures within { result ≤ length out.new }
{
    let mut line = Line::fresh();
    let mut records = [Settings::blank(); 100];
    let mut tallies = [0i64; 3400];
    for event in &told() {
        // `Ok` says which outputs to switch, as `conveyor` and `sorter`; `Err` why nothing has changed.
        let _ = line.advance(&mut records, &mut tallies, *event);
    }
    match report(&records, &tallies, 0) {
        Ok(sheet) => sheet_lines(out, 0, sheet),
        Err(_) => 0,
    }
}
