// States that are sound and states that are not, each with its theorem, in `specs`. There is no code here.
#![tactic(auto)]
