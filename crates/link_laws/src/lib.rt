// Laws of the 3964R link as a whole; no code.
#![tactic(auto)]
