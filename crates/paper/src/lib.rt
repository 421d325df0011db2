// What is right, as definitions in specs/ and their laws in proofs/. This crate has no code.
#![tactic(auto)]
