// The lent memory of the settings: a list of records, one for each code.
#![tactic(auto)]

ghost use Rattle.std.specs.Prelude.{◌≡◌, set, get_or};
ghost use Rattle.settings.specs.Settings.{blank};

use settings::Settings;

// Code's record; blank past the end.
pub fn read(records: &[Settings], code: u64) -> Settings
    ensures { result ≡ get_or records.now code blank }
{
    let Some(record) = records.get(code as usize) else {
        return Settings::blank();
    };
    *record
}

// Code's record becomes s; past the end nothing is written. A test and a store: of the slice after `get_mut` the library
// says nothing.
pub fn write(records: &mut [Settings], code: u64, s: Settings)
    ensures { records.new ≡ set records.old code s }
{
    let to = code as usize;
    if to < records.len() {
        records[to] = s;
    }
}
