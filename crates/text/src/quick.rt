// A sample as it mostly comes, read by its keys: the same answer as by its form, sooner.
ghost use Rattle.std.specs.Prelude.{◌≡◌, true, [], ◌∷◌, ◌⊎◌, ◌<◌, length, drop, get_or, None};
ghost use Rattle.numeral.specs.Number.{digit_of};
ghost use Rattle.text.specs.Read.{sample, first_of};
ghost use Rattle.text.specs.Views.{is_prefix, is_level, head_is, middle_is};

use crate::Read;
use event::{Event, Sample};
use numeral::{read_number, unsigned_of};

// The bytes of `key` stand at a place. The loop has no early end, so a key of a fixed length becomes a compare or two: with
// `starts_with` a sample was measured to take a fifth more instructions to read.
pub fn has_key(line: &[u8], at: usize, key: &[u8]) -> bool
    ensures { result ≡ is_prefix key.now (drop at line.now) }
{
    let Some(rest) = line.get(at..) else {
        return key.is_empty();
    };
    if rest.len() < key.len() {
        return false;
    }
    let mut same = true;
    for (j, &byte) in key.iter().enumerate() {
        same = same & (rest[j] == byte);
    }
    same
}

// 0 or 1 stands at a place.
fn level_at(line: &[u8], at: usize) -> bool
    ensures { result ≡ is_level (drop at line.now) }
{
    matches!(line.get(at), Some(b'0' | b'1'))
}

fn level_of(line: &[u8], at: usize) -> u64
    requires { is_level (drop at line.now) ≡ true }
    ensures { result ≡ digit_of (get_or line.now at 0) }
{
    u64::from(line[at] - b'0')
}

// A sample's text up to the value of safety, with a level for each of the two values before it.
fn is_head(line: &[u8]) -> bool
    ensures { result ≡ head_is line.now }
{
    has_key(line, 0, b"sensor=")
        && level_at(line, 7)
        && has_key(line, 8, b" emergency=")
        && level_at(line, 19)
        && has_key(line, 20, b" safety=")
}

// A sample's text between the values of safety and gross, with a level between.
fn is_middle(line: &[u8]) -> bool
    ensures { result ≡ middle_is line.now }
{
    has_key(line, 0, b" foreign=") && level_at(line, 9) && has_key(line, 10, b" gross=")
}

// A sample as it mostly comes, its levels 0 or 1; other text is left to its form.
pub(crate) fn quick_sample(line: &[u8]) -> Option<Read>
    ensures { (result ≡ None) ⊎ (result ≡ first_of (sample ∷ []) line.now) }
{
    if !is_head(line) {
        return None;
    }
    let safety = read_number(line, 28)?;
    let rest = line.get(safety.next..)?;
    if !is_middle(rest) {
        return None;
    }
    let gross = read_number(rest, 17)?;
    if gross.next < rest.len() {
        return None;
    }
    Some(Read::Event(Event::Sample(Sample {
        gross: gross.value,
        sensor: level_of(line, 7),
        emergency: level_of(line, 19),
        safety: unsigned_of(safety.value),
        foreign: level_of(rest, 9),
    })))
}
