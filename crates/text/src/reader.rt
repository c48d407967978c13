// What a line says: its form by its first byte, then the event or the report that its values give.
ghost use Rattle.std.specs.Prelude.{◌≡◌, [], ◌∷◌};
ghost use Rattle.text.specs.Read.{sample, setup, store, report, coded_commands, commands, first_of, read_line};

use crate::form::read_form;
use crate::meaning::{sample_of, setup_of, stored_of};
use crate::quick::quick_sample;
use crate::{LONGEST_LINE, Read};
use event::Event;
use numeral::unsigned_of;

// Most lines are samples that `quick_sample` reads; its answer is the form's.
fn read_sample(line: &[u8]) -> Option<Read>
    ensures { result ≡ first_of (sample ∷ []) line.now }
{
    let quick = quick_sample(line);
    if quick.is_some() {
        return quick;
    }
    sample_by_form(line)
}

fn sample_by_form(line: &[u8]) -> Option<Read>
    ensures { result ≡ first_of (sample ∷ []) line.now }
{
    let v = read_form(line, b"sensor=# emergency=# safety=# foreign=# gross=#")?;
    Some(Read::Event(Event::Sample(sample_of(&v))))
}

fn read_setup(line: &[u8]) -> Option<Read>
    ensures { result ≡ first_of (setup ∷ []) line.now }
{
    let v = read_form(
        line,
        b"mode=# edge=# tc=# tw=# ta=# tf=# ts1=# to1=# sort1=# ts2=# to2=# sort2=# ts3=# to3=# sort3=# ts4=# to4=# sort4=# ts5=# to5=# sort5=# ts6=# to6=# sort6=# stop=# need=#",
    )?;
    Some(Read::Event(Event::Setup(setup_of(&v))))
}

fn read_store(line: &[u8]) -> Option<Read>
    ensures { result ≡ first_of (store ∷ []) line.now }
{
    let v = read_form(
        line,
        b"code=# target=# lolo=# lo=# hi=# hihi=# nearzero=# tare=#",
    )?;
    Some(Read::Event(Event::Store(stored_of(&v))))
}

fn read_report(line: &[u8]) -> Option<Read>
    ensures { result ≡ first_of (report ∷ []) line.now }
{
    let [code] = read_form::<1>(line, b"report=#")?;
    Some(Read::Report(unsigned_of(code)))
}

fn read_coded(line: &[u8]) -> Option<Read>
    ensures { result ≡ first_of coded_commands line.now }
{
    if let Some(v) = read_form::<1>(line, b"CCOD$") {
        let [code] = v;
        return Some(Read::Event(Event::Recall(unsigned_of(code))));
    }
    let [code] = read_form::<1>(line, b"CDTL$")?;
    Some(Read::Event(Event::ClearCode(unsigned_of(code))))
}

fn read_command(line: &[u8]) -> Option<Read>
    ensures { result ≡ first_of commands line.now }
{
    let event = match line {
        b"COPR" => Event::Run,
        b"CSTD" => Event::Stop,
        b"CSTP" => Event::Emergency,
        b"CCAC" => Event::Cancel,
        b"CETL" => Event::ClearAll,
        b"CRER" => Event::ErrorReset,
        b"CNOP" => Event::NoOperation,
        _ => return read_coded(line),
    };
    Some(Read::Event(event))
}

pub fn read_line(line: &[u8]) -> Option<Read>
    ensures { result ≡ read_line line.now }
{
    if LONGEST_LINE < line.len() {
        return None;
    }
    match line.first()? {
        b's' => read_sample(line),
        b'm' => read_setup(line),
        b'c' => read_store(line),
        b'r' => read_report(line),
        b'C' => read_command(line),
        _ => None,
    }
}
