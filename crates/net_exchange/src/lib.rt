// From the centre's call to the centre's answer. No code.
#![tactic(auto)]
