//! Tests of boards and tries that were worked out by hand: what a board refuses and keeps, what single
//! tries answer and leave, and that two threads commit at the same time.
#![tactic(auto)]

#[cfg(test)]
mod boards;
#[cfg(test)]
mod sample;
#[cfg(test)]
mod tries;
