// What follows from the definitions of `rules`: demand 3, where operators exist, the step list, which refusals there are, the paper's
// examples. No function.
#![tactic(auto)]
