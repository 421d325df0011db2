// The symbologies of EAN that returned goods carry: EAN-13. What reads their rows is the crate
// ean_reader.
#![tactic(auto)]

pub mod ean13;
