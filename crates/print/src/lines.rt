// Lines that are written to a lent buffer, one text behind the other. A field is its key, given with what separates it from
// the field before and with its `=`, and its value.
ghost use Rattle.std.specs.Prelude.{◌≡◌, ◌++◌, ◌+◌, ◌≤◌, leb, length};
ghost use Rattle.decimal.specs.Number.{decimal, number_text};
ghost use Rattle.print.specs.Text.{line_end, none};
ghost use Rattle.print.specs.Sheet.{figure_text, tenths_text, spread_text};
ghost use Rattle.print.specs.Steps.{Writes, WritesIfRoom, value_room, spread_room};

use crate::buffer::{put, put_decimal};

// No value is longer, in bytes.
const VALUE_ROOM: usize = 20;

#[derive(Drop)]
pub struct Lines<'a> {
    pub out: &'a mut [u8],
    // the place behind what was written; one past the buffer's length has no room
    pub at: usize,
}

// So many bytes from a place on lie within a buffer of this length.
fn has_room(length: usize, at: usize, room: usize) -> bool
    ensures { result ≡ leb (at + room) length }
{
    if length < room {
        return false;
    }
    at <= length - room
}

impl Lines<'_> {
    // A text; where it has too little room nothing is written.
    pub fn text(&mut self, text: &[u8])
        ensures { WritesIfRoom self.old text.now (length text.now) self.new }
    {
        if !has_room(self.out.len(), self.at, text.len()) {
            return;
        }
        self.put(text);
    }

    // A field; where there may be too little room nothing is written.
    pub fn count(&mut self, key: &[u8], n: u64)
        ensures { WritesIfRoom self.old (key.now ++ decimal n) (length key.now + value_room) self.new }
    {
        if self.out.len() < VALUE_ROOM {
            return;
        }
        if !has_room(self.out.len() - VALUE_ROOM, self.at, key.len()) {
            return;
        }
        self.put_count(key, n);
    }

    pub(crate) fn put(&mut self, text: &[u8])
        requires { self.old.at + length text.now ≤ length self.old.out.now }
        ensures { Writes self.old text.now (length text.now) self.new }
    {
        self.at = put(self.out, self.at, text);
    }

    pub(crate) fn end_line(&mut self)
        requires { self.old.at + 1 ≤ length self.old.out.now }
        ensures { Writes self.old line_end 1 self.new }
    {
        self.put(b"\n");
    }

    fn put_decimal(&mut self, n: u64)
        requires { self.old.at + length (decimal n) ≤ length self.old.out.now }
        ensures { Writes self.old (decimal n) (length (decimal n)) self.new }
    {
        self.at = put_decimal(self.out, self.at, n);
    }

    fn put_signed(&mut self, v: i64)
        requires { self.old.at + value_room ≤ length self.old.out.now }
        ensures { Writes self.old (number_text v) value_room self.new }
    {
        if v < 0 {
            self.put(b"-");
        }
        self.put_decimal(v.unsigned_abs());
    }

    pub(crate) fn put_count(&mut self, key: &[u8], n: u64)
        requires { self.old.at + length key.now + value_room ≤ length self.old.out.now }
        ensures { Writes self.old (key.now ++ decimal n) (length key.now + value_room) self.new }
    {
        self.put(key);
        self.put_decimal(n);
    }

    pub(crate) fn put_number(&mut self, key: &[u8], v: i64)
        requires { self.old.at + length key.now + value_room ≤ length self.old.out.now }
        ensures { Writes self.old (key.now ++ number_text v) (length key.now + value_room) self.new }
    {
        self.put(key);
        self.put_signed(v);
    }

    pub(crate) fn put_none(&mut self, key: &[u8])
        requires { self.old.at + length key.now + value_room ≤ length self.old.out.now }
        ensures { Writes self.old (key.now ++ none) (length key.now + value_room) self.new }
    {
        self.put(key);
        self.put(b"none");
    }

    pub(crate) fn put_figure(&mut self, key: &[u8], figure: Option<i64>)
        requires { self.old.at + length key.now + value_room ≤ length self.old.out.now }
        ensures { Writes self.old (key.now ++ figure_text figure) (length key.now + value_room) self.new }
    {
        match figure {
            Some(v) => self.put_number(key, v),
            None => self.put_none(key),
        }
    }

    pub(crate) fn put_spread(&mut self, key: &[u8], spread: Option<u64>)
        requires { self.old.at + length key.now + spread_room ≤ length self.old.out.now }
        ensures { Writes self.old (key.now ++ spread_text spread) (length key.now + spread_room) self.new }
    {
        match spread {
            Some(s) => self.put_tenths(key, s),
            None => self.put_none(key),
        }
    }

    // s tenths, with one decimal.
    fn put_tenths(&mut self, key: &[u8], s: u64)
        requires { self.old.at + length key.now + spread_room ≤ length self.old.out.now }
        ensures { Writes self.old (key.now ++ tenths_text s) (length key.now + spread_room) self.new }
    {
        self.put_count(key, s / 10);
        self.put(b".");
        self.put_decimal(s % 10);
    }
}
