#![tactic(auto)]

// No code: the listing's turns joined to the listing of a whole capture, and worked lines.
