#![tactic(auto)]

// No code: laws over every bus of one or two devices, and worked examples, of the definitions of crate pair.
