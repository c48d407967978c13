// How text is written, numbers and quoted words: its definitions, and the laws of a number's digits. No code.
#![tactic(auto)]
