// The twelve events on the line, and the two ways to apply them: to a line that is handed over, and to one that is lent.
// Line, records and tallies are three parameters: a struct of what is lent would be made for each event and taken apart in it.
ghost use Rattle.std.specs.Prelude.{◌≡◌, true, false, [], None, Err};
ghost use Rattle.event.specs.Kind.{is_sample};
ghost use Rattle.settings.specs.Settings.{record_fit};
ghost use Rattle.event.specs.Sample.{sample_ranged};
ghost use Rattle.event.specs.Reply.{no_error};
ghost use Rattle.line.specs.Line.{with_status, with_setup};
ghost use Rattle.line.specs.Fit.{line_fit};
ghost use Rattle.line.specs.Effect.{effect_of, plain};
ghost use Rattle.line.specs.Sample.{sampled};
ghost use Rattle.line.specs.Command.{ran, stopping, alarmed};
ghost use Rattle.line.specs.Tallying.{step_in, untallied, recorded, cancelled, recalled, cleared_one, cleared_all};
ghost use Rattle.line.specs.Refusal.{refusal_of};
ghost use Rattle.line.specs.State.{state};
ghost use Rattle.line.specs.Storing.{stored};
ghost use Rattle.line.specs.Step.{storing, accepted, refused, step_of, out_on, step_on};

use crate::effect::Boxes;
use crate::line::Line;
use crate::step::Step;
use event::{Event, Refused, Reply, Sample, Setup, Stored};
use part::Part;
use refusal::Refusal;
use settings::Settings;

// Each of the twelve takes the line and hands the next one back, with what else it gives. First what changes neither the line
// nor a tally, or the line alone.
impl Line {
    // The next line, with what happened to boxes, where no verdict is tallied and nothing is stored.
    fn untallied(self, boxes: Boxes) -> Step
        ensures { result ≡ step_in (untallied (effect_of self boxes) []) }
    {
        let reply = self.replied(boxes, 0);
        Step {
            line: self,
            reply,
            storing: None,
        }
    }

    fn run(mut self) -> Step
        ensures { result ≡ step_in (untallied (ran self) []) }
    {
        let boxes = self.ran();
        self.untallied(boxes)
    }

    fn stop(mut self) -> Step
        ensures { result ≡ step_in (untallied (stopping self) []) }
    {
        let boxes = self.stopping();
        self.untallied(boxes)
    }

    fn emergency(mut self) -> Step
        ensures { result ≡ step_in (untallied (alarmed self) []) }
    {
        let boxes = self.alarmed();
        self.untallied(boxes)
    }

    fn recall(mut self, code: u64) -> Step
        ensures { result ≡ step_in (untallied (plain (recalled self code)) []) }
    {
        self.undo = None;
        self.code = code;
        self.untallied(Boxes::none())
    }

    fn error_reset(mut self) -> Step
        ensures { result ≡ step_in (untallied (plain (with_status self self.status no_error)) []) }
    {
        self.error = Line::NO_ERROR;
        self.untallied(Boxes::none())
    }

    fn no_operation(self) -> Step
        ensures { result ≡ step_in (untallied (plain self) []) }
    {
        self.untallied(Boxes::none())
    }

    fn set_up(mut self, setup: Setup) -> Step
        ensures { result ≡ step_in (untallied (plain (with_setup self setup)) []) }
    {
        self.setup = setup;
        self.untallied(Boxes::none())
    }

    // The line stays; code's settings are to be replaced.
    fn store(self, stored: Stored) -> Step
        ensures { result ≡ step_in (storing self [] stored) }
    {
        let reply = self.replied(Boxes::none(), 0);
        Step {
            line: self,
            reply,
            storing: Some(stored),
        }
    }
}

// What changes tallies.
impl Line {
    // A sample on the line where it is.
    fn take(&mut self, active: Settings, tallies: &mut [i64], s: Sample) -> Reply
        requires { (line_fit self.old ≡ true) × (record_fit active ≡ true) × (sample_ranged s ≡ true) }
        ensures line { self.new ≡ (recorded (sampled self.old active s) active.target tallies.old).line }
        ensures reply { result ≡ (recorded (sampled self.old active s) active.target tallies.old).reply }
        ensures memory { tallies.new ≡ (recorded (sampled self.old active s) active.target tallies.old).tallies }
    {
        let boxes = self.sampled(active, s);
        self.recorded(boxes, active.target, tallies)
    }

    #[tactic(auto, unfolding(crate::specs::Tallying::recorded, crate::specs::Tallying::noted))]
    fn sample(mut self, active: Settings, tallies: &mut [i64], s: Sample) -> Step
        requires { (line_fit self ≡ true) × (record_fit active ≡ true) × (sample_ranged s ≡ true) }
        ensures answer { result ≡ step_in (recorded (sampled self active s) active.target tallies.old) }
        ensures memory { tallies.new ≡ (recorded (sampled self active s) active.target tallies.old).tallies }
    {
        let reply = self.take(active, tallies, s);
        Step {
            line: self,
            reply,
            storing: None,
        }
    }

    fn cancel(mut self, tallies: &mut [i64]) -> Step
        ensures answer { result ≡ step_in (cancelled self tallies.old) }
        ensures memory { tallies.new ≡ (cancelled self tallies.old).tallies }
    {
        undo::put_back(self.undo, tallies, self.code);
        self.undo = None;
        self.untallied(Boxes::none())
    }

    // Clearing the active code ends the chance to cancel.
    #[tactic(auto, unfolding(crate::specs::Tallying::code_cleared))]
    fn clear_code(mut self, tallies: &mut [i64], code: u64) -> Step
        ensures answer { result ≡ step_in (cleared_one self tallies.old code) }
        ensures memory { tallies.new ≡ (cleared_one self tallies.old code).tallies }
    {
        tallies::write(tallies, code, Part::empty());
        if code == self.code {
            self.undo = None;
        }
        self.untallied(Boxes::none())
    }

    fn clear_all(mut self, tallies: &mut [i64]) -> Step
        ensures answer { result ≡ step_in (cleared_all self tallies.old) }
        ensures memory { tallies.new ≡ (cleared_all self tallies.old).tallies }
    {
        tallies::clear(tallies);
        self.undo = None;
        self.untallied(Boxes::none())
    }
}

impl Line {
    // Any event but a sample.
    #[tactic(auto, unfolding(crate::specs::Step::accepted))]
    fn commanded(self, active: Settings, tallies: &mut [i64], e: Event) -> Step
        requires { is_sample e ≡ false }
        ensures answer { result ≡ step_in (accepted self active tallies.old e) }
        ensures memory { tallies.new ≡ (accepted self active tallies.old e).tallies }
    {
        match e {
            Event::Run => self.run(),
            Event::Stop => self.stop(),
            Event::Emergency => self.emergency(),
            Event::Recall(code) => self.recall(code),
            Event::Cancel => self.cancel(tallies),
            Event::ClearCode(code) => self.clear_code(tallies, code),
            Event::ClearAll => self.clear_all(tallies),
            Event::ErrorReset => self.error_reset(),
            Event::Sample(_) | Event::NoOperation => self.no_operation(),
            Event::Setup(setup) => self.set_up(setup),
            Event::Store(stored) => self.store(stored),
        }
    }

    #[tactic(auto, unfolding(crate::specs::Step::accepted))]
    fn accepted(self, count: u64, active: Settings, tallies: &mut [i64], e: Event) -> Step
        requires { refusal_of self count active tallies.old e ≡ None }
        ensures answer { result ≡ step_in (accepted self active tallies.old e) }
        ensures memory { tallies.new ≡ (accepted self active tallies.old e).tallies }
    {
        if let Event::Sample(s) = e {
            return self.sample(active, tallies, s);
        }
        self.commanded(active, tallies, e)
    }

    // What a refusal says: its number, and for number 5 the input.
    fn refused_by(&self, refusal: Refusal) -> Refused
        ensures { (refused self.now [] refusal).reply ≡ Err result }
    {
        Refused {
            number: refusal.number(),
            input: self.input(refusal),
        }
    }

    // An event on the line and its tallies, where `count` settings records are lent and `active` is the active code's.
    // Accepted, it gives the next line, and a verdict, a cancel or a clear changes tallies; refused, nothing changes.
    #[tactic(auto, unfolding(crate::specs::Step::step_of))]
    fn step(self, count: u64, active: Settings, tallies: &mut [i64], e: Event) -> Step
        ensures answer { result ≡ step_in (step_of self count active tallies.old e) }
        ensures memory { tallies.new ≡ (step_of self count active tallies.old e).tallies }
    {
        if let Some(refusal) = self.refusal(count, active, &*tallies, e) {
            let reply = Err(self.refused_by(refusal));
            return Step {
                line: self,
                reply,
                storing: None,
            };
        }
        self.accepted(count, active, tallies, e)
    }

    // An event on the line and both lent memories, the settings records and the tallies. Of the records an event reads
    // the active code's, and a store replaces one.
    pub fn apply(self, records: &mut [Settings], tallies: &mut [i64], e: Event) -> Step
        ensures answer { result ≡ step_in (out_on (state self records.old tallies.old) e) }
        ensures settings { records.new ≡ (step_on (state self records.old tallies.old) e).state.settings }
        ensures memory { tallies.new ≡ (step_on (state self records.old tallies.old) e).state.tallies }
    {
        let count = records.len() as u64;
        let active = records::read(records, self.code);
        let step = self.step(count, active, tallies, e);
        replace_record(records, step.storing);
        step
    }
}

// A line that is lent.
impl Line {
    // As `apply`, on a line that stays with its owner. A sample comes on every tick: the line is not copied for it.
    #[tactic(auto, unfolding(crate::specs::Step::step_of, crate::specs::Step::accepted), using(crate::proofs::Accepted::none_recorded))]
    pub fn advance(&mut self, records: &mut [Settings], tallies: &mut [i64], e: Event) -> Reply
        ensures line { self.new ≡ (step_on (state self.old records.old tallies.old) e).state.line }
        ensures settings { records.new ≡ (step_on (state self.old records.old tallies.old) e).state.settings }
        ensures memory { tallies.new ≡ (step_on (state self.old records.old tallies.old) e).state.tallies }
        ensures reply { result ≡ (step_on (state self.old records.old tallies.old) e).reply }
    {
        let count = records.len() as u64;
        let active = records::read(records, self.code);
        if let Some(refusal) = self.refusal(count, active, &*tallies, e) {
            return Err(self.refused_by(refusal));
        }
        if let Event::Sample(s) = e {
            return self.take(active, tallies, s);
        }
        let step = self.commanded(active, tallies, e);
        *self = step.line;
        replace_record(records, step.storing);
        step.reply
    }
}

// The record that an event stores, if it stores one, takes its code's place.
fn replace_record(records: &mut [Settings], storing: Option<Stored>)
    ensures { records.new ≡ stored records.old storing }
{
    if let Some(stored) = storing {
        records::write(records, stored.code, stored.settings);
    }
}
