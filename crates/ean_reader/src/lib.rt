// The readers of the symbologies of EAN: EAN-13.
#![tactic(auto)]

pub mod ean13;
