// The kernel that the run's numbers show: when they show it, and that they go on to show it whatever happens; no code.
#![tactic(auto)]
