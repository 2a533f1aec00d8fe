// What follows from the definitions of `rules` and is cited by the code above: laws of tables, fact sets and least bounds. No function.
#![tactic(auto)]
