// What a cancel puts back, and how a verdict and its cancel change the lent tallies.
#![tactic(auto)]

ghost use Rattle.std.specs.Prelude.{◌≡◌};
ghost use Rattle.undo.specs.Undo.{undo_fit, kept_of, noted_in, put_back};

use part::Part;

// What is kept is a code's part as before the last verdict, for a cancel; None where there is nothing to cancel.
#[tactic(auto, unfolding(crate::specs::Undo::undo_fit))]
pub fn fit(kept: Option<Part>) -> bool
    ensures { result ≡ undo_fit kept }
{
    match kept {
        None => true,
        Some(part) => part.fit(),
    }
}

// A cancel: the kept part goes back to code's place.
#[tactic(auto, unfolding(crate::specs::Undo::put_back))]
pub fn put_back(kept: Option<Part>, tallies: &mut [i64], code: u64)
    ensures { tallies.new ≡ put_back tallies.old code kept }
{
    if let Some(part) = kept {
        tallies::write(tallies, code, part);
    }
}

// A verdict is tallied under a code, and what stood there before it is kept. Where there is no room, or what comes in is
// unfit, nothing changes and nothing is kept. Net, and the code's target at the verdict, are in divisions.
#[tactic(auto, using(crate::proofs::Laws::unsound, crate::proofs::Laws::kept_none, crate::proofs::Laws::kept_same, crate::proofs::Laws::kept_some, crate::proofs::Laws::kept_next, part::proofs::Noted::as_given))]
pub fn note(tallies: &mut [i64], code: u64, verdict: u64, net: i64, target: i64) -> Option<Part>
    ensures kept { result ≡ kept_of tallies.old code verdict net target }
    ensures memory { tallies.new ≡ noted_in tallies.old code verdict net target }
{
    if !tallies::fit_at(tallies, code) {
        return None;
    }
    let before = tallies::read(tallies, code);
    let after = before.noted(verdict, net, target)?;
    tallies::write(tallies, code, after);
    Some(before)
}
