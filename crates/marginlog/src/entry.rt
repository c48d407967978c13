// What a line says.
ghost use Rattle.std.specs.Prelude.{◌≡◌};
ghost use Rattle.text.specs.Form.{line_values};
ghost use Rattle.text.specs.Read.{read_line};
ghost use Rattle.field.specs.Field.{sole_value};
ghost use Rattle.marginlog.specs.Entry.{margin_form, gross_form, margin_entry, gross_entry, store_in, store_entry, read_entry};

use event::{Event, Stored};
use field::sole_field;
use numeral::unsigned_of;
use text::{LONGEST_LINE, Read, read_line};

// What a line says: `e=` begins a call with this margin, a store line gives a code and its settings, `gross=` a sample
// (divisions). A number that is too small or too large stands as one that is out of range.
#[derive(Clone, Copy)]
pub enum Entry {
    Begin(u64),
    Store(Stored),
    Gross(i64),
}

fn read_gross(line: &[u8]) -> Option<Entry>
    ensures { result ≡ gross_entry (sole_value (line_values gross_form line.now)) }
{
    sole_field(line, b"gross=").map(Entry::Gross)
}

fn read_margin(line: &[u8]) -> Option<Entry>
    ensures { result ≡ margin_entry (sole_value (line_values margin_form line.now)) }
{
    let e = sole_field(line, b"e=")?;
    Some(Entry::Begin(unsigned_of(e)))
}

// A code's settings, if this is a store.
fn store_in(e: Event) -> Option<Entry>
    ensures { result ≡ store_in e }
{
    match e {
        Event::Store(stored) => Some(Entry::Store(stored)),
        _ => None,
    }
}

fn read_store(line: &[u8]) -> Option<Entry>
    ensures { result ≡ store_entry (read_line line.now) }
{
    match read_line(line) {
        Some(Read::Event(e)) => store_in(e),
        _ => None,
    }
}

#[tactic(auto, using(crate::proofs::Long::too_long))]
pub fn read_entry(line: &[u8]) -> Option<Entry>
    ensures { result ≡ read_entry line.now }
{
    if LONGEST_LINE < line.len() {
        return None;
    }
    read_gross(line)
        .or_else(|| read_margin(line))
        .or_else(|| read_store(line))
}
