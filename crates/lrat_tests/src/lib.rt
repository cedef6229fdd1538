//! Tests of the solver, whose logs are fed to the checker, and of the calls on clauses, steps and step lines.
//!
//! A test function may stop the program at each of its comparisons, and what is proved of it grows with its
//! ways out times its values that are to be dropped. So the steps stand in functions of their own, that return a text, and a
//! test has no `?`. A checker is lent to the steps and let go by a call of `drop`, not part by part at the end of a scope.
#![tactic(auto)]

#[cfg(test)]
mod checking;
#[cfg(test)]
mod clauses;
#[cfg(test)]
mod lines;
#[cfg(test)]
mod rat;
#[cfg(test)]
mod rules;
#[cfg(test)]
mod shared;
#[cfg(test)]
mod streaming;
#[cfg(test)]
mod tests;
