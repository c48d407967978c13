// A sample: the seven steps in order.
ghost use Rattle.std.specs.Prelude.{◌≡◌, true};
ghost use Rattle.settings.specs.Settings.{record_fit};
ghost use Rattle.event.specs.Sample.{sample_ranged};
ghost use Rattle.line.specs.Fit.{line_fit};
ghost use Rattle.line.specs.Effect.{effect_of};
ghost use Rattle.line.specs.Sample.{Ready, step1, edge_made, foreign_rises, on_bench, step4, step5, step6, box_taken, by_hand, detecting, step7, ninth_signal, running_tick, sampled};

use crate::effect::Boxes;
use crate::line::Line;
use event::{Last, Sample, Setup};
use item::{Item, Weighed, new_item};
use settings::Settings;
use sorters::all_ticked;

// What a running tick is given: the active code's record, the gross (divisions), whether the foreign level rose and whether
// the settled level made the chosen edge.
#[derive(Clone, Copy)]
pub(crate) struct Tick {
    pub(crate) active: Settings,
    pub(crate) gross: i64,
    pub(crate) rises: bool,
    pub(crate) made: bool,
}

// Edge 1 is off to on, edge 2 on to off.
#[tactic(auto, unfolding(crate::specs::Sample::edge_made))]
fn edge_made(edge: u64, before: u64, after: u64) -> bool
    ensures { result ≡ edge_made edge before after }
{
    if edge == 1 {
        return (before == 0) & (after == 1);
    }
    (before == 1) & (after == 0)
}

impl Line {
    #[tactic(auto, unfolding(crate::specs::Sample::foreign_rises))]
    fn foreign_rises(&self, s: Sample) -> bool
        ensures { result ≡ foreign_rises self.now s }
    {
        (self.last.foreign == 0) & (s.foreign == 1)
    }

    // The sample is kept as the last, and the sensor settles, running or not.
    #[tactic(auto, unfolding(crate::specs::Sample::step1))]
    fn step1(&mut self, s: Sample)
        ensures { self.new ≡ step1 self.old s }
    {
        self.sensor = self.sensor.settled(self.setup.tc, s.sensor);
        self.last = Last {
            gross: s.gross,
            safety: s.safety,
            foreign: s.foreign,
        };
    }

    // In bench mode a running tick's gross is kept, and up to nearzero it arms.
    #[tactic(auto, unfolding(crate::specs::Sample::on_bench))]
    fn on_bench(&mut self, tick: &Tick)
        ensures { self.new ≡ on_bench self.old tick.now }
    {
        if self.setup.mode == Setup::BENCH {
            self.bench = self.bench.ticked(tick.gross, tick.active.nearzero);
        }
    }

    // The sorters' times.
    #[tactic(auto, unfolding(crate::specs::Sample::step4))]
    fn step4(&mut self)
        ensures { self.new ≡ step4 self.old }
    {
        self.sorters = all_ticked(self.sorters, self.setup);
    }

    // The foreign signals under way.
    #[tactic(auto, unfolding(crate::specs::Sample::step5))]
    fn step5(&mut self, tick: &Tick)
        ensures { self.new ≡ step5 self.old tick.now }
    {
        self.foreign = self.foreign.ticked(tick.rises, self.setup.tf);
    }

    // The item in hand is weighed, and judged on its last tick.
    #[tactic(auto, unfolding(crate::specs::Sample::step6, crate::specs::Sample::after_weighing))]
    fn step6(&mut self, tick: &Tick) -> Boxes
        requires { Ready self.old tick.now }
        ensures { effect_of self.new result ≡ step6 self.old tick.now }
    {
        match self.item.weighed(self.setup, tick.gross) {
            Weighed::Still(i) => {
                self.item = i;
                Boxes::none()
            }
            Weighed::Mean(m) => {
                self.item = Item::None;
                self.judged(tick.active, m)
            }
        }
    }

    // The level rose with as many signals carried as can be.
    #[tactic(auto, unfolding(crate::specs::Sample::ninth_signal))]
    fn ninth_signal(&self, tick: &Tick) -> bool
        ensures { result ≡ ninth_signal self.now tick.now }
    {
        tick.rises & self.foreign.eight_carried()
    }

    // Steps 4 to 7; a ninth signal ends them behind 5.
    #[tactic(auto, unfolding(crate::specs::Sample::running_tick, crate::specs::Sample::unless_ninth, crate::specs::Sample::on_bench, crate::specs::Sample::step4, crate::specs::Sample::step5))]
    fn running_tick(&mut self, tick: &Tick) -> Boxes
        requires { Ready self.old tick.now }
        ensures { effect_of self.new result ≡ running_tick self.old tick.now }
    {
        let ninth = self.ninth_signal(tick);
        self.on_bench(tick);
        self.step4();
        self.step5(tick);
        if ninth {
            self.set_status(Line::PAUSED, status::NINTH_SIGNAL);
            return Boxes::none();
        }
        let boxes = self.step6(tick);
        self.step7(boxes, tick)
    }

    #[tactic(auto, unfolding(crate::specs::Sample::sampled, crate::specs::Sample::from_step3, crate::specs::Sample::step2, crate::specs::Effect::halting, crate::specs::Effect::halted, crate::specs::Sample::step3, crate::specs::Sample::guarded, crate::specs::Sample::step1))]
    pub(crate) fn sampled(&mut self, active: Settings, s: Sample) -> Boxes
        requires { (line_fit self.old ≡ true) × (record_fit active ≡ true) × (sample_ranged s ≡ true) }
        ensures { effect_of self.new result ≡ sampled self.old active s }
    {
        let rises = self.foreign_rises(s);
        let before = self.sensor.level;
        self.step1(s);
        let made = edge_made(self.setup.edge, before, self.sensor.level);
        if s.emergency == 1 {
            return self.halting(Line::EMERGENCY);
        }
        if self.status == Line::EMERGENCY {
            return self.halting(Line::STOPPED);
        }
        if self.status != Line::RUNNING {
            return Boxes::none();
        }
        if self.input_off() != 0 {
            self.set_status(Line::PAUSED, status::UNSAFE);
            return Boxes::none();
        }
        self.running_tick(&Tick {
            active,
            gross: s.gross,
            rises,
            made,
        })
    }
}

// Step 7, behind what step 6 did to a box.
impl Line {
    // A box is detected: in bench mode by its weight, else by the sensor.
    #[tactic(auto, unfolding(crate::specs::Sample::step7, crate::specs::Sample::by_sensor))]
    fn step7(&mut self, boxes: Boxes, tick: &Tick) -> Boxes
        ensures { effect_of self.new result ≡ step7 (effect_of self.old boxes) tick.now }
    {
        if self.status != Line::RUNNING {
            return boxes;
        }
        if self.setup.mode == Setup::BENCH {
            return self.by_hand(boxes, tick);
        }
        if tick.made {
            return self.detecting(boxes);
        }
        boxes
    }

    // A new item is in hand.
    #[tactic(auto, unfolding(crate::specs::Sample::box_taken))]
    fn box_taken(&mut self, boxes: Boxes) -> Boxes
        ensures { effect_of self.new result ≡ box_taken (effect_of self.old boxes) self.old }
    {
        self.item = new_item(self.setup);
        Boxes {
            detected: 1,
            outcome: boxes.outcome,
            net: boxes.net,
        }
    }

    // With nothing in hand an armed line detects a box that lies still, and is disarmed.
    #[tactic(auto, unfolding(crate::specs::Sample::by_hand, crate::specs::Sample::box_taken))]
    fn by_hand(&mut self, boxes: Boxes, tick: &Tick) -> Boxes
        ensures { effect_of self.new result ≡ by_hand (effect_of self.old boxes) tick.now }
    {
        if !self.item.in_hand() & self.bench.detects(tick.gross, tick.active.nearzero) {
            self.bench = self.bench.disarmed();
            return self.box_taken(boxes);
        }
        boxes
    }

    // A detected box, alone or with one in hand.
    #[tactic(auto, unfolding(crate::specs::Sample::detecting))]
    fn detecting(&mut self, boxes: Boxes) -> Boxes
        ensures { effect_of self.new result ≡ detecting (effect_of self.old boxes) }
    {
        if self.item.in_hand() {
            self.item = Item::None;
            return self.given(1, verdict::TWO_ON, 0);
        }
        self.box_taken(boxes)
    }
}
