// Axes, places and frames: definitions and laws only.
#![tactic(auto)]
