// Laws of the gate bus as a whole; no code.
#![tactic(auto)]
