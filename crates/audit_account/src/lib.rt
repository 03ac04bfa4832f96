// This crate has no code. What an account of a log is, what the audit's call promises and what carrying on does stand in specs/, what
// follows from it in proofs/.
#![tactic(auto)]
