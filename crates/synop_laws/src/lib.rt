// What is proved of SYNOP and SHIP as a whole: the round trip, what it promises, and worked examples. The theorems are in proofs/; there is no code.
#![tactic(auto)]
