// The definition of a run, and what is shown of it; no code.
#![tactic(auto)]
