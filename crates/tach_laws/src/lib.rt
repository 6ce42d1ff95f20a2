#![tactic(auto)]

// No code: what the tachometer tells, place by place and of true distances, and when each code is given (request h).
