// What the values of a line say.
ghost use Rattle.std.specs.Prelude.{◌≡◌, ◌+◌, ◌<◌, length};
ghost use Rattle.text.specs.Read.{sample_of, sorter_at, setup_of, stored_of};

use event::{Sample, Setup, SorterSetup, Stored};
use numeral::unsigned_of;
use settings::Settings;

pub(crate) fn sample_of(v: &[i64; 5]) -> Sample
    ensures { result ≡ sample_of v.now }
{
    let [sensor, emergency, safety, foreign, gross] = *v;
    Sample {
        gross,
        sensor: unsigned_of(sensor),
        emergency: unsigned_of(emergency),
        safety: unsigned_of(safety),
        foreign: unsigned_of(foreign),
    }
}

// One sorter's three values, from i on.
fn sorter_at(v: &[i64], i: usize) -> SorterSetup
    requires { i + 2 < length v.now }
    ensures { result ≡ sorter_at v.now i }
{
    SorterSetup {
        ts: unsigned_of(v[i]),
        to: unsigned_of(v[i + 1]),
        sort: unsigned_of(v[i + 2]),
    }
}

pub(crate) fn setup_of(v: &[i64; 26]) -> Setup
    ensures { result ≡ setup_of v.now }
{
    let [mode, edge, tc, tw, ta, tf, .., stop, need] = *v;
    Setup {
        mode: unsigned_of(mode),
        edge: unsigned_of(edge),
        tc: unsigned_of(tc),
        tw: unsigned_of(tw),
        ta: unsigned_of(ta),
        tf: unsigned_of(tf),
        sorters: [
            sorter_at(v, 6),
            sorter_at(v, 9),
            sorter_at(v, 12),
            sorter_at(v, 15),
            sorter_at(v, 18),
            sorter_at(v, 21),
        ],
        stop: unsigned_of(stop),
        need: unsigned_of(need),
    }
}

pub(crate) fn stored_of(v: &[i64; 8]) -> Stored
    ensures { result ≡ stored_of v.now }
{
    let [code, target, lolo, lo, hi, hihi, nearzero, tare] = *v;
    Stored {
        code: unsigned_of(code),
        settings: Settings {
            target,
            lolo,
            lo,
            hi,
            hihi,
            nearzero,
            tare,
        },
    }
}
