// Definitions and laws alone: how many bytes the records of a reading take, and what is left of them on a walk.
#![tactic(auto)]
