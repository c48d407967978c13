// What a report answers.
ghost use Rattle.std.specs.Prelude.{◌≡◌};
ghost use Rattle.sheet.specs.Report.{memory_wrong, report_refusal, report_of};

use crate::sheet::{Sheet, sheet_of};
use refusal::{Refusal, lengths_wrong};
use settings::{Settings, is_code};

// The flat core: of the settings records a report needs only how many there are, and the code's own.
#[tactic(auto, unfolding(crate::specs::Report::report_of))]
pub(crate) fn report_on(
    count: u64,
    own: Settings,
    tallies: &[i64],
    code: u64,
) -> Result<Sheet, Refusal>
    ensures { result ≡ report_of count own tallies.now code }
{
    if let Some(refusal) = report_refusal(count, own, tallies, code) {
        return Err(refusal);
    }
    Ok(sheet_of(tallies::read(tallies, code), own.target))
}

// What refuses a report. The other rows of the table are an event's, or other text's.
#[tactic(auto, unfolding(crate::specs::Report::report_refusal))]
fn report_refusal(count: u64, own: Settings, tallies: &[i64], code: u64) -> Option<Refusal>
    ensures { result ≡ report_refusal count own tallies.now code }
{
    if memory_wrong(count, own, tallies, code) {
        return Some(Refusal::Memory);
    }
    if !is_code(code) {
        return Some(Refusal::Value);
    }
    None
}

#[tactic(auto, unfolding(crate::specs::Report::memory_wrong))]
fn memory_wrong(count: u64, own: Settings, tallies: &[i64], code: u64) -> bool
    ensures { result ≡ memory_wrong count own tallies.now code }
{
    lengths_wrong(count, tallies)
        | is_code(code)
            & (!own.fit()
                | !tallies::fit_at(tallies, code)
                | !spread::fit(tallies::read(tallies, code).tally))
}
