// A receiver that goes by its looks, over lists of steps. What is claimed of it is `specs/Served`, and of the order of sending
// `specs/Sending`. There is no code here.
#![tactic(auto)]
