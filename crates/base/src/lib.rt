// Lists, Booleans and numbers: the general definitions are in `specs/`, and their laws in `specs/Laws`. There is no code here.
#![tactic(auto)]
