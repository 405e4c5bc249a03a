// The worked cases, as one proved table; no code.
#![tactic(auto)]
