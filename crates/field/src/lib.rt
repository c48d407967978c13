// A field of a line, `key=value`, at a place: document 01, "Text lines". For the programs whose lines have a field or two.
#![tactic(auto)]

ghost use Rattle.std.specs.Prelude.{◌≡◌, drop};
ghost use Rattle.numeral.specs.Found.{found, held_head};
ghost use Rattle.text.specs.Form.{line_values};
ghost use Rattle.field.specs.Field.{field_head, sole_form, sole_value};

use numeral::{Found, read_number};
use text::has_key;

// The number behind a key at a place, and the place behind the number. The key is given with what separates it from the field
// before and with its `=`.
pub fn read_field(line: &[u8], at: usize, key: &[u8]) -> Option<Found>
    ensures { found line.now result ≡ held_head (field_head key.now (drop at line.now)) }
{
    if !has_key(line, at, key) {
        return None;
    }
    read_number(line, at + key.len())
}

// The number of a line that is one field with this key, held within the limit. The key is given with its `=`.
pub fn sole_field(line: &[u8], key: &[u8]) -> Option<i64>
    ensures { result ≡ sole_value (line_values (sole_form key.now) line.now) }
{
    let found = read_field(line, 0, key)?;
    if found.next < line.len() {
        return None;
    }
    Some(found.value)
}
