// How the definitions choose, and the laws that every proof uses: of tests that were passed, of signed numbers. No code.
#![tactic(auto)]
