#![tactic(auto)]

// The bodies of MoP telegrams: definitions and laws, no code.
