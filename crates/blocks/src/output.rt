// What is printed goes to a writer.
ghost use Rattle.std.specs.Prelude.{◌≡◌, length, take};
ghost use Rattle.std.specs.Io.KnownBytes.{Appends};
ghost use Rattle.blocks.specs.Taken.{all_taken, TakenOf};

use std::io::Write;

// Of so many bytes, how many `write` has taken.
#[derive(Clone, Copy)]
pub struct Taken {
    of: usize,
    taken: usize,
}

impl Taken {
    // All of them.
    pub fn all(self) -> bool
        ensures { result ≡ all_taken self }
    {
        self.taken == self.of
    }
}

// Writes these bytes, until all are taken or a `write` takes none. The loop is here, since `write_all` does not say how many
// bytes were taken before it failed.
pub fn write_out<W: Write>(writer: &mut W, out: &[u8]) -> Taken
    ensures taken { TakenOf (length out.now) result }
    ensures written { Appends (W.contents writer.old) (W.contents writer.new) (take result.taken out.now) }
{
    let of = out.len();
    let mut done = 0;
    while done < of {
        let put = writer.write(&out[done..]).unwrap_or(0);
        if put == 0 {
            return Taken { of, taken: done };
        }
        done += put;
    }
    Taken { of, taken: done }
}
