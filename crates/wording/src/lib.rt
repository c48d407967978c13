// The wording of the lines: each line that is taken has one text, 01's example reads and prints as 01 and T-06 say, a
// spread can be read back, and demand 3 holds of every text that comes in.
// The functions say nothing of the code: their contracts are theorems on the definitions that the reader and the
// printer equal.
#![tactic(auto)]

ghost use Rattle.wording.specs.OneText.{OneText};
ghost use Rattle.wording.specs.Reading.{Reading};
ghost use Rattle.wording.specs.Printing.{Printing};
ghost use Rattle.wording.specs.Tenths.{Tenths};
ghost use Rattle.wording.specs.Claim.{TextClaim};

// Each line that is taken has no other text.
#[tactic(auto, using(crate::proofs::Inverse::only_text))]
pub fn one_text()
    ensures { OneText }
{}

// 01's example lines, and lines that are none.
pub fn lines_read()
    ensures { Reading }
{}

// What 01's example prints, all of it.
pub fn lines_printed()
    ensures { Printing }
{}

// A spread's text, and that its digits without the point give its tenths back.
#[tactic(auto, unfolding(decimal::specs::Number::decimal), using(crate::proofs::Tenths::read_back))]
pub fn spreads_in_tenths()
    ensures { Tenths }
{}

// Behind every input the line and both memories are those that the events of its lines give, the claim holds of them, and
// none of their boxes is left waiting.
#[tactic(auto, using(crate::proofs::Events::claim_stands))]
pub fn claim_of_text()
    ensures { TextClaim }
{}
