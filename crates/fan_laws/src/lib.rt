#![tactic(auto)]

// No code: what the fan's steps and duties keep to, when each code is given, and the columns of the page (request g).
