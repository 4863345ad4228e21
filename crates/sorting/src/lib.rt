// Entries of a list, sorted and each once: definitions and laws, no code.
#![tactic(auto)]
