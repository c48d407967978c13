// Where a line of text ends.
ghost use Rattle.std.specs.Prelude.{◌≤◌, ◌≡◌, length};
ghost use Rattle.blocks.specs.Lines.{lf_among, end_from};

const LF: u8 = b'\n';

// An LF is among sixteen bytes: straight code for speed, with no branch for each byte.
fn has_lf(bytes: &[u8]) -> bool
    requires { length bytes.now ≡ 16 }
    ensures { result ≡ lf_among bytes.now 16 }
{
    (bytes[0] == LF)
        | (bytes[1] == LF)
        | (bytes[2] == LF)
        | (bytes[3] == LF)
        | (bytes[4] == LF)
        | (bytes[5] == LF)
        | (bytes[6] == LF)
        | (bytes[7] == LF)
        | (bytes[8] == LF)
        | (bytes[9] == LF)
        | (bytes[10] == LF)
        | (bytes[11] == LF)
        | (bytes[12] == LF)
        | (bytes[13] == LF)
        | (bytes[14] == LF)
        | (bytes[15] == LF)
}

// The first place from `start` on, by sixteens, where an LF is that near or the input ends.
fn near_end(input: &[u8], start: usize) -> usize
    requires { start ≤ length input.now }
    ensures { (result ≤ length input.now) × (end_from input.now result ≡ end_from input.now start) }
{
    for (k, bytes) in input[start..].chunks_exact(16).enumerate() {
        if has_lf(bytes) {
            return start + 16 * k;
        }
    }
    start + (input.len() - start) / 16 * 16
}

// Where the line that begins at `start` ends: at its LF, or where the input ends. Past the input it ends where it begins.
#[tactic(auto, using(crate::proofs::Ends::goes_on, crate::proofs::Ends::ends_here, crate::proofs::Ends::ends_last))]
pub fn line_end(input: &[u8], start: usize) -> usize
    ensures { result ≡ end_from input.now start }
{
    if input.len() < start {
        return start;
    }
    for i in near_end(input, start)..input.len() {
        if input[i] == LF {
            return i;
        }
    }
    input.len()
}
