// What is proved of the record of an accepted text: the writer takes it. The theorems are in proofs/; there is no code.
#![tactic(auto)]
