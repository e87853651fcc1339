// What a program has read and written that takes turns, as definitions and laws; there is no code.
#![tactic(auto)]
