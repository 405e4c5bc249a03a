// What holds of every telegram at a station, and on its journey over a net. No code.
#![tactic(auto)]
