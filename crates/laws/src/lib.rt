#![tactic(auto)]

// No code: the laws in proofs/ belong to no section of document 01 and serve every crate.
