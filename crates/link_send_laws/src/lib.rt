// Laws of a sender over many events, and of a sender and a receiving half together; no code.
#![tactic(auto)]
