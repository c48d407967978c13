// A program that refuses each line with the number of its first byte, and the end with 0 where a line had one.
ghost use Rattle.std.specs.Prelude.{ℕ, ◌≡◌, Bool, true, false, cond, List, [], ◌∷◌, slice_get, refl};
ghost use Rattle.print.specs.Reply.{refused_text};

use crate::{Calls, OUTPUT_ROOM, refuse, serve_input};
use blocks::Ended;

#[derive(Drop)]
struct Firsts {
    any: bool,
}

impl Calls for Firsts {
    ghost service = { record {
      Entry = ℕ;
      State = Bool;
      reads = λ t. slice_get t 0;
      start = false;
      has_place = λ any b. true;
      after = λ any b. true;
      Says = λ any b text. text ≡ refused_text b 0;
      Closes = λ any text. text ≡ cond any (refused_text 0 0) [];
    } };

    ghost state = { λ f. f.any };

    ghost sound = { λ f. Unit {0} };

    fn fresh() -> Firsts {
        Firsts { any: false }
    }

    fn line(&mut self, line: &[u8], out: &mut [u8; OUTPUT_ROOM]) -> Option<usize> {
        let first = *line.first()?;
        self.any = true;
        Some(refuse(out, u64::from(first)))
    }

    fn close(&mut self, out: &mut [u8; OUTPUT_ROOM]) -> usize {
        if self.any {
            return refuse(out, 0);
        }
        0
    }

    ghost cut = { elim [ [] ↦ refl | b ∷ t ↦ refl ] };

    ghost quiet = { λ text e. e };
}

#[test]
fn serves_each_line_and_the_end(rt: HostRuntime) {
    for (input, output) in [
        ("", ""),
        ("ab", "refused=97 input=0\nrefused=0 input=0\n"),
        (
            "a\n\nb\n",
            "refused=97 input=0\nrefused=1 input=0\nrefused=98 input=0\nrefused=0 input=0\n",
        ),
    ] {
        let mut reader = input.as_bytes();
        let mut written = [0; 100];
        let mut writer = &mut written[..];
        let ended = serve_input::<Firsts, &[u8], &mut [u8]>(&mut reader, &mut writer);
        assert!(rt; matches!(ended, Ended::Input(_)));
        let room = writer.len();
        let count = written.len().saturating_sub(room);
        assert_eq!(rt; &written[..count], output.as_bytes());
    }
}
