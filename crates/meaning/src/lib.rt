#![tactic(auto)]

// This crate is its definitions (specs/) and theorems (proofs/); it has no code.
