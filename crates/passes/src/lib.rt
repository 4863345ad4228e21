// Stable passes by buckets: definitions and laws, no code.
#![tactic(auto)]
