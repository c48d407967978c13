// The report of a code from both lent memories.
ghost use Rattle.std.specs.Prelude.{◌≡◌};
ghost use Rattle.sheet.specs.Report.{report_on};

use crate::answer::report_on;
use crate::sheet::Sheet;
use refusal::Refusal;
use settings::Settings;

// The code's sheet, or what refuses it.
pub fn report(records: &[Settings], tallies: &[i64], code: u64) -> Result<Sheet, Refusal>
    ensures { result ≡ report_on records.now tallies.now code }
{
    let own = records::read(records, code);
    report_on(records.len() as u64, own, tallies, code)
}
