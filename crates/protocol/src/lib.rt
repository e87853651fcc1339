// Paper 01 as definitions, and the laws of single steps: all of it is in `specs`.
#![tactic(auto)]
