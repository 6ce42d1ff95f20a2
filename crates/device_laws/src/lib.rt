#![tactic(auto)]

// No code: laws over every device, and worked examples, of the device's definitions.
