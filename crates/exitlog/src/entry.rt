// What a line says.
ghost use Rattle.std.specs.Prelude.{◌≡◌, drop, Some};
ghost use Rattle.text.specs.Form.{line_values};
ghost use Rattle.field.specs.Field.{sole_form, sole_value};
ghost use Rattle.exitlog.specs.Entry.{verdict_form, signal_form, window_form, tick_in, tick_entry, window_entry, read_entry};
ghost use Rattle.exitlog.specs.declared.entry.Entry.TheVariants.{Verdict, Signal};
ghost use Rattle.exitlog.specs.Views.{PlainNumber, TickOf};

use field::{read_field, sole_field};
use numeral::unsigned_of;
use text::LONGEST_LINE;

// What a line says: `a= b=` begins a call, `verdict=` and `signal=` give a tick. A tick that 64 bits do not hold, too large or
// negative, is too wide; a bound of the window that is negative or above 1,000,000,000 is given as 1,000,000,000, which is in
// no window.
#[derive(Clone, Copy)]
pub enum Entry {
    Begin { a: u64, b: u64 },
    Verdict(u64),
    Signal(u64),
    TooWide,
}

// The number that stands from a place to the end, digit by digit; none where 64 bits do not hold it.
fn exact(line: &[u8], at: usize) -> Option<u64>
    requires { PlainNumber (drop at line.now) }
    ensures { TickOf (drop at line.now) result }
{
    let mut size: u64 = 0;
    for i in at..line.len() {
        let digit = u64::from(line[i] - b'0');
        size = size.checked_mul(10)?.checked_add(digit)?;
    }
    Some(size)
}

// The tick of a line that is one field with this key; `value` is its number, held within the limit.
fn tick(line: &[u8], key: &[u8], value: i64) -> Option<u64>
    requires { Some value ≡ sole_value (line_values (sole_form key.now) line.now) }
    ensures { result ≡ tick_in (line_values (sole_form key.now) line.now) }
{
    if value < 0 {
        return None;
    }
    exact(line, key.len())
}

// The two lists are told apart by their keys alone: a function over both would take the key and the constructor for two lines.
fn read_verdict(line: &[u8]) -> Option<Entry>
    ensures { result ≡ tick_entry Verdict (line_values verdict_form line.now) }
{
    let value = sole_field(line, b"verdict=")?;
    Some(tick(line, b"verdict=", value).map_or(Entry::TooWide, Entry::Verdict))
}

fn read_signal(line: &[u8]) -> Option<Entry>
    ensures { result ≡ tick_entry Signal (line_values signal_form line.now) }
{
    let value = sole_field(line, b"signal=")?;
    Some(tick(line, b"signal=", value).map_or(Entry::TooWide, Entry::Signal))
}

// The window of a call.
fn read_window(line: &[u8]) -> Option<Entry>
    ensures { result ≡ window_entry (line_values window_form line.now) }
{
    let a = read_field(line, 0, b"a=")?;
    let b = read_field(line, a.next, b" b=")?;
    if b.next < line.len() {
        return None;
    }
    Some(Entry::Begin {
        a: unsigned_of(a.value),
        b: unsigned_of(b.value),
    })
}

#[tactic(auto, using(crate::proofs::Long::too_long))]
pub fn read_entry(line: &[u8]) -> Option<Entry>
    ensures { result ≡ read_entry line.now }
{
    if LONGEST_LINE < line.len() {
        return None;
    }
    read_verdict(line)
        .or_else(|| read_signal(line))
        .or_else(|| read_window(line))
}
