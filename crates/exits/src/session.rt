// A call, line by line.
ghost use Rattle.std.proofs.Common.{rules};
ghost use Rattle.std.specs.Prelude.{ℕ, List, None, Some};
ghost use Rattle.calls.specs.Traces.{Answers};
ghost use Rattle.calls.proofs.Lines.{cut_read};
ghost use Rattle.exitlog.specs.Entry.{short_entry};
ghost use Rattle.exitlog.specs.declared.entry.Entry.TheVariants.{Begin, Verdict, Signal, TooWide};
ghost use Rattle.exits.specs.Session.{exit_calls, state_of};

use crate::memory::{Call, Session};
use blocks::filled;
use calls::{CallsWithRoom, note, refuse};
use exitlog::{CALL_ROOM, Entry, call_lines, read_entry};
use refusal::Refusal;

// Each step answers how many bytes it prints, and none where what a line says has no place: before the first call. The two lists
// have a step each, since a function over both would take the list, its number and its field for three lines.
impl Session {
    // A call begins, and ends the one before it.
    fn begin(&mut self, a: u64, b: u64, out: &mut [u8; CALL_ROOM]) -> Option<usize>
        ensures { Answers exit_calls (state_of self.old) (Some (Begin a b)) (state_of self.new) out.new result }
    {
        let at = self.close(out);
        self.call = Some(Call {
            wide: false,
            a,
            b,
            verdicts: 0,
            signals: 0,
        });
        Some(at)
    }

    // A tick joins the verdicts of the call.
    fn verdict(&mut self, tick: u64) -> Option<usize>
        ensures { (out : List ℕ) → Answers exit_calls (state_of self.old) (Some (Verdict tick)) (state_of self.new) out result }
    {
        let call = self.call?;
        let verdicts = note(&mut self.verdicts, call.verdicts, tick);
        self.call = Some(Call { verdicts, ..call });
        Some(0)
    }

    // A tick joins the signals of the call.
    fn signal(&mut self, tick: u64) -> Option<usize>
        ensures { (out : List ℕ) → Answers exit_calls (state_of self.old) (Some (Signal tick)) (state_of self.new) out result }
    {
        let call = self.call?;
        let signals = note(&mut self.signals, call.signals, tick);
        self.call = Some(Call { signals, ..call });
        Some(0)
    }

    // A tick came that 64 bits do not hold.
    fn too_wide(&mut self) -> Option<usize>
        ensures { (out : List ℕ) → Answers exit_calls (state_of self.old) (Some TooWide) (state_of self.new) out result }
    {
        let call = self.call?;
        self.call = Some(Call { wide: true, ..call });
        Some(0)
    }
}

impl CallsWithRoom<CALL_ROOM> for Session {
    ghost service = { exit_calls };

    ghost state = { state_of };

    fn fresh() -> Session {
        Session {
            call: None,
            verdicts: filled(0),
            signals: filled(0),
            pairs: filled(0),
        }
    }

    fn line(&mut self, line: &[u8], out: &mut [u8; CALL_ROOM]) -> Option<usize> {
        match read_entry(line)? {
            Entry::Begin { a, b } => self.begin(a, b, out),
            Entry::Verdict(tick) => self.verdict(tick),
            Entry::Signal(tick) => self.signal(tick),
            Entry::TooWide => self.too_wide(),
        }
    }

    // A call's lines, or that it has a tick too wide; nothing where none has begun.
    fn close(&mut self, out: &mut [u8; CALL_ROOM]) -> usize {
        let Some(call) = self.call else {
            return 0;
        };
        if call.wide {
            return refuse(out, Refusal::Value.number());
        }
        let n = call.verdicts;
        let m = call.signals;
        call_lines(
            &self.verdicts[..n],
            &self.signals[..m],
            call.a,
            call.b,
            &mut self.pairs,
            out,
        )
    }

    ghost wide = { Prim.search rules };

    ghost cut = { cut_read short_entry None };

    ghost quiet = { λ text e. e };
}
