// What follows from the definitions of a search: the walk finds what is to be found and counts what is to be counted, a plan found is
// accepted by the check, and what the search answers, from bytes. No function.
#![tactic(auto)]
