#![tactic(auto)]

// No code: the account of a capture in records and settings, and that every latch of the model is what the account says (request e).
