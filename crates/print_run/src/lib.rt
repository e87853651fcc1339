// The printed run as a definition, whole and in pieces: all of it is in `specs`.
#![tactic(auto)]
