// The values of a line by its form: in a form # is a number, $ four digits, and any other byte itself.
ghost use Rattle.std.specs.Prelude.{◌≡◌, drop};
ghost use Rattle.text.specs.Form.{line_values, value_count};
ghost use Rattle.text.specs.Read.{held};
ghost use Rattle.numeral.specs.Found.{found, held_head};
ghost use Rattle.text.specs.Views.{is_literal, items_of, value_head, form_values};

use numeral::{Found, byte_at, read_four, read_number};

fn is_literal(item: u8) -> bool
    ensures { result ≡ is_literal item }
{
    !matches!(item, b'#' | b'$')
}

// What an item that has a value finds at a place.
fn read_value(line: &[u8], at: usize, item: u8) -> Option<Found>
    ensures { found line.now result ≡ held_head (value_head item (drop at line.now)) }
{
    if item == b'#' {
        read_number(line, at)
    } else {
        read_four(line, at)
    }
}

// The values of a line, as many as its form has.
pub(crate) fn read_form<const N: usize>(line: &[u8], form: &[u8]) -> Option<[i64; N]>
    requires { value_count (items_of form.now) ≡ N }
    ensures { form_values result ≡ held (line_values (items_of form.now) line.now) }
{
    let mut values = [0i64; N];
    let mut count = 0;
    let mut at = 0;
    for &item in form {
        if is_literal(item) {
            if !byte_at(line, at, item) {
                return None;
            }
            at += 1;
        } else {
            let found = read_value(line, at, item)?;
            values[count] = found.value;
            count += 1;
            at = found.next;
        }
    }
    if at < line.len() {
        return None;
    }
    Some(values)
}
