#![tactic(auto)]

// No code: a capture of one device against the definition from before a bus could carry two.
