// The walk of document 02's C-11 row by row and level by level, as a loop goes through it: definitions and laws, no function.
#![tactic(auto)]
