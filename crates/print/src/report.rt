// The lines of a code's sheet.
ghost use Rattle.std.specs.Prelude.{◌≡◌, ◌++◌, ◌+◌, ◌≤◌, length};
ghost use Rattle.part.specs.Class.{last_class};
ghost use Rattle.print.specs.Text.{line_end, ahead, joined};
ghost use Rattle.print.specs.Sheet.{totals, grades, faults, weight_figures, spreads, class_field, classes_from, sheet_text, sheet_room};
ghost use Rattle.print.specs.Written.{buffer_after, length_written};
ghost use Rattle.print.specs.Steps.{Writes};

use crate::SHEET_ROOM;
use crate::lines::Lines;
use part::CLASSES;
use sheet::Sheet;

// The sheet of a code as 39 lines at the front of `out`, and their length. A buffer of less than its room is left as it
// is, and the answer is 0.
pub fn sheet_lines(out: &mut [u8], code: u64, s: Sheet) -> usize
    ensures value { result ≡ length_written sheet_room (sheet_text code s) out.old }
    ensures out_after { out.new ≡ buffer_after sheet_room (sheet_text code s) out.old }
{
    if out.len() < SHEET_ROOM {
        return 0;
    }
    let mut lines = Lines { out: out, at: 0 };
    put_sheet(&mut lines, code, s);
    lines.at
}

fn put_sheet(lines: &mut Lines, code: u64, s: Sheet)
    requires { lines.old.at + 1077 ≤ length lines.old.out.now }
    ensures { Writes lines.old (sheet_text code s) 1077 lines.new }
{
    put_totals(lines, code, s);
    put_grades(lines, s);
    put_faults(lines, s);
    put_weights(lines, s);
    put_spreads(lines, s);
    put_classes(lines, s.classes);
    lines.end_line();
}

fn put_totals(lines: &mut Lines, code: u64, s: Sheet)
    requires { lines.old.at + 76 ≤ length lines.old.out.now }
    ensures { Writes lines.old (joined line_end (totals code s)) 76 lines.new }
{
    lines.put_count(b"code=", code);
    lines.put_count(b"\ntotal=", s.total);
    lines.put_count(b"\nng=", s.ng);
}

fn put_grades(lines: &mut Lines, s: Sheet)
    requires { lines.old.at + 124 ≤ length lines.old.out.now }
    ensures { Writes lines.old (ahead line_end (grades s)) 124 lines.new }
{
    lines.put_count(b"\nlolo=", s.counts.lolo);
    lines.put_count(b"\nlo=", s.counts.lo);
    lines.put_count(b"\nok=", s.counts.ok);
    lines.put_count(b"\nhi=", s.counts.hi);
    lines.put_count(b"\nhihi=", s.counts.hihi);
}

fn put_faults(lines: &mut Lines, s: Sheet)
    requires { lines.old.at + 84 ≤ length lines.old.out.now }
    ensures { Writes lines.old (ahead line_end (faults s)) 84 lines.new }
{
    lines.put_count(b"\nforeign=", s.counts.foreign);
    lines.put_count(b"\ndouble=", s.counts.double);
    lines.put_count(b"\ncrash=", s.counts.crash);
}

fn put_weights(lines: &mut Lines, s: Sheet)
    requires { lines.old.at + 132 ≤ length lines.old.out.now }
    ensures { Writes lines.old (ahead line_end (weight_figures s)) 132 lines.new }
{
    lines.put_figure(b"\nmax=", s.max);
    lines.put_figure(b"\nmin=", s.min);
    lines.put_number(b"\nsum=", s.sum);
    lines.put_figure(b"\nmean=", s.mean);
    lines.put_figure(b"\ndeviation=", s.deviation);
}

fn put_spreads(lines: &mut Lines, s: Sheet)
    requires { lines.old.at + 51 ≤ length lines.old.out.now }
    ensures { Writes lines.old (ahead line_end (spreads s)) 51 lines.new }
{
    lines.put_spread(b"\nsd=", s.sd);
    lines.put_spread(b"\nsdp=", s.sdp);
}

// Class 0 to class 20, each in a line of its own.
fn put_classes(lines: &mut Lines, classes: [u64; CLASSES])
    requires { lines.old.at + 609 ≤ length lines.old.out.now }
    ensures { Writes lines.old (ahead line_end (classes_from 0 classes)) 609 lines.new }
{
    for (k, n) in classes.iter().enumerate() {
        put_class(lines, k as u64, *n);
    }
}

fn put_class(lines: &mut Lines, k: u64, n: u64)
    requires { (lines.old.at + 29 ≤ length lines.old.out.now) × (k ≤ last_class) }
    ensures { Writes lines.old (line_end ++ class_field k n) 29 lines.new }
{
    lines.put_count(b"\nclass", k);
    lines.put_count(b"=", n);
}
