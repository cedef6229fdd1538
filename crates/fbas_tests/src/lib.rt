//! Worked systems, on which the calls of the crates below are tried.
//!
//! A test function may stop the program at each of its comparisons, and what is proved of it grows with its
//! ways out times its values that are to be dropped. So the steps stand in functions of their own, that return what the test
//! compares, and a test has no `?`. A system is let go by a call of `drop`, not part by part at the end of a scope.
#![tactic(auto)]

#[cfg(test)]
mod configurations;
#[cfg(test)]
mod findings;
#[cfg(test)]
mod node_sets;
#[cfg(test)]
mod plain;
#[cfg(test)]
mod quorum_sets;
#[cfg(test)]
mod shared;
#[cfg(test)]
mod tests;
