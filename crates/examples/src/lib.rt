// This crate has no code. Examples of document 02's orders 1, 2, 4, 5 and 6, from bytes, stand in specs/; proofs/ show them as one claim.
#![tactic(auto)]
