// What the numbers that C is handed say, entry by entry, and that the definitions' numbers say it. No function.
#![tactic(auto)]
