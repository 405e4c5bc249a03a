// What a journey, and a dry run of it, show of a net: of no register but those of the destination. No code.
#![tactic(auto)]
