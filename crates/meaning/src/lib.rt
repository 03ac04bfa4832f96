// This crate has no code. What a sheet means and what every public call promises stand in specs/, the theory about them in proofs/.
#![tactic(auto)]
