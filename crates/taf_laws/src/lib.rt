// TAF: the round trip of the text and what it promises. Laws only: this crate has no function.
#![tactic(auto)]
