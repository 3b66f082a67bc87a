// What is proved of every kind of report. The theorems are in proofs/; there is no code.
#![tactic(auto)]
