// What the elements of a body are read from: definitions and laws, which the kinds that have a body cite. No code of its own.
#![tactic(auto)]
