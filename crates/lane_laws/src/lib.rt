//! The laws of one lane: the law of the ring holds at the start of a session and is kept by each step. From it follows
//! what the two sides read from the ring. The definitions that the laws speak of stand in `lane_model`.
//!
//! Each law is the clause of a function of [`laws`] with an empty body. Crates above call that function, or cite its
//! lemma in `proofs/Facade.antt`, which has the function's name.
#![tactic(auto)]

pub mod laws;
