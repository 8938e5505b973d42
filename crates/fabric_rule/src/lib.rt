//! What a fabric keeps of a pair, what each step does to it, and when it represents the ledger of the steps made:
//! definitions and laws, no code.
//!
//! Each law is the clause of a function of [`laws`] with an empty body.
#![tactic(auto)]

pub mod laws;
