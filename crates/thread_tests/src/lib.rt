//! Tests of what no contract says. The workers of a run, and the two ends of a stream, act beside one another. They
//! tell a gate each of their turns. The program reads and writes in whole pieces.
#![tactic(auto)]

#[cfg(test)]
mod answers;
#[cfg(test)]
mod meetings;
#[cfg(test)]
mod pieces;
#[cfg(test)]
mod places;
#[cfg(test)]
mod polls;
#[cfg(test)]
mod reads;
#[cfg(test)]
mod turns;
#[cfg(test)]
mod wants;
