#![tactic(auto)]

// No code: the theorem on cuts, and what else is said of the reader's definitions.
