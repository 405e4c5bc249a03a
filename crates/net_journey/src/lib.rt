// The journey of a telegram over a net of stations. No code.
#![tactic(auto)]
