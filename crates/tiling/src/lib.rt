// The volumes of a grid's cells, which make up its box.
#![tactic(auto)]
