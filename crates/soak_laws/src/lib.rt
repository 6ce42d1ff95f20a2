#![tactic(auto)]

// No code: how far a soak is read, and that what it answers is what the full run answers (request f).
