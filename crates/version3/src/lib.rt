// Problems in the text format of the Fast Downward translator's output, version 3. The definitions are in specs/; there is no function here.
#![tactic(auto)]
