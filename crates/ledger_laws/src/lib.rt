//! The laws of every log of a cluster, with switches and without, and of what its memories show. The definitions that
//! they speak of stand in `ledger_model`.
//!
//! Each law is the clause of a function with an empty body. Crates above call that function, or cite its lemma in
//! `proofs/Facade.antt`, which has the function's name.
#![tactic(auto)]

pub mod byte_laws;
pub mod laws;
pub mod network_laws;
