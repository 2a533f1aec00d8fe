// What follows for the emitted problem: its variables and lines in order and counted, its values in range, the size of its sections.
// No function.
#![tactic(auto)]
