// A call, line by line.
ghost use Rattle.std.proofs.Common.{rules};
ghost use Rattle.std.specs.Prelude.{ℕ, List, None, Some};
ghost use Rattle.calls.specs.Traces.{Answers};
ghost use Rattle.calls.proofs.Lines.{cut_read};
ghost use Rattle.marginlog.specs.Entry.{short_entry};
ghost use Rattle.marginlog.specs.declared.entry.Entry.TheVariants.{Begin, Store, Gross};
ghost use Rattle.margin.specs.Session.{margin_calls, state_of};

use crate::memory::{Call, Session};
use blocks::filled;
use calls::{CallsWithRoom, note, refuse};
use event::Stored;
use marginlog::{Entry, call_line, read_entry};
use possible::Refusal;
use print::REPLY_ROOM;

// Each step answers how many bytes it prints, and none where what a line says has no place: the settings stand behind the line
// that begins the call, and the samples behind the settings.
impl Session {
    // A call begins, and ends the one before it.
    fn begin(&mut self, e: u64, out: &mut [u8; REPLY_ROOM]) -> Option<usize>
        ensures { Answers margin_calls (state_of self.old) (Some (Begin e)) (state_of self.new) out.new result }
    {
        let at = self.close(out);
        self.call = Some(Call {
            e,
            stored: None,
            count: 0,
        });
        Some(at)
    }

    // The settings of the call.
    fn store(&mut self, stored: Stored) -> Option<usize>
        ensures { (out : List ℕ) → Answers margin_calls (state_of self.old) (Some (Store stored)) (state_of self.new) out result }
    {
        let call = self.call?;
        if call.stored.is_some() {
            return None;
        }
        self.call = Some(Call {
            stored: Some(stored),
            ..call
        });
        Some(0)
    }

    // A sample joins those of the call, in divisions.
    fn sample(&mut self, gross: i64) -> Option<usize>
        ensures { (out : List ℕ) → Answers margin_calls (state_of self.old) (Some (Gross gross)) (state_of self.new) out result }
    {
        let call = self.call?;
        if call.stored.is_none() {
            return None;
        }
        let count = note(&mut self.samples, call.count, gross);
        self.call = Some(Call { count, ..call });
        Some(0)
    }
}

impl CallsWithRoom<REPLY_ROOM> for Session {
    ghost service = { margin_calls };

    ghost state = { state_of };

    fn fresh() -> Session {
        Session {
            call: None,
            samples: filled(0),
        }
    }

    fn line(&mut self, line: &[u8], out: &mut [u8; REPLY_ROOM]) -> Option<usize> {
        match read_entry(line)? {
            Entry::Begin(e) => self.begin(e, out),
            Entry::Store(stored) => self.store(stored),
            Entry::Gross(gross) => self.sample(gross),
        }
    }

    // A call's line; nothing where none has begun. One without settings has no samples either.
    fn close(&mut self, out: &mut [u8; REPLY_ROOM]) -> usize {
        let Some(call) = self.call else {
            return 0;
        };
        let Some(stored) = call.stored else {
            return refuse(out, Refusal::Samples.number());
        };
        let n = call.count;
        call_line(
            &self.samples[..n],
            call.e,
            stored.code,
            stored.settings,
            out,
        )
    }

    ghost wide = { Prim.search rules };

    ghost cut = { cut_read short_entry None };

    ghost quiet = { λ text e. e };
}
