// This crate has no code. What the check of a proposal and the planner promise stands in specs/, what follows from it in proofs/.
#![tactic(auto)]
