//! The model of a cluster of pairs: the ledger that a script's steps change, the answer to each step, and the log of a
//! run. With switches, the log is one fold over the plan's steps. Its state is the steps made on bridges so far, the
//! switches and the passages of frames from lane to lane. What the memories of a pair show is the last byte that landed
//! writes, checks and clears stored in each place.
//!
//! It has definitions alone, over lists and numbers, and worked examples by which the definitions can be read. The laws
//! of every log stand in `ledger_laws`.
#![tactic(auto)]

pub mod examples;
