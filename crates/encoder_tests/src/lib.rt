//! Worked systems, of which the intersection formula is written, and worked quorum sets, of which the circuit is.
//!
//! A test function may stop the program at each of its comparisons, and what is proved of it grows with its
//! ways out times its values that are to be dropped. So the steps stand in functions of their own, that return a text, and a
//! test has no `?`.
#![tactic(auto)]

#[cfg(test)]
mod circuits;
#[cfg(test)]
mod shared;
#[cfg(test)]
mod tests;
#[cfg(test)]
mod written;
