// Compile: a good sheet made into its book, once for each call. What that promises is said in specs/Promise.antt; that the book's system is
// the sheet's is proofs/Same.antt.
#![tactic(auto)]

pub mod build;
pub mod record;
pub mod sections;

pub use sections::compile;
