// Lists of steps: the ordering claim of paper 01 is `specs/Claim`, and the theorem is `specs/Laws/Ordering`. There is no code here.
#![tactic(auto)]
