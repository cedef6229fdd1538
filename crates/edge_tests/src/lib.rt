//! The edge of the program: the words of the command line, desks that fail, and the machine's.
//!
//! A test function may stop the program at each of its comparisons, and what is proved of it grows with its
//! ways out times its values that are to be dropped. So the steps stand in functions of their own, that return a text, and a
//! test has no `?`. A desk is lent to the steps and let go by a call of `drop`, not part by part at the end of a scope.
#![tactic(auto)]

#[cfg(test)]
mod both;
#[cfg(test)]
mod desks;
#[cfg(test)]
mod interruptions;
#[cfg(test)]
mod machine;
#[cfg(test)]
mod openings;
#[cfg(test)]
mod replacing;
#[cfg(test)]
mod shared;
#[cfg(test)]
mod words;
