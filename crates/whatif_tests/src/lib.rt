//! Scripts over a worked system: what is told after each line, the faults, and that the edited text is read as the edited system.
//!
//! What is proved of a test grows with its ways out times its values that are to be dropped. So the steps stand in functions of
//! their own that return a text, and a test has no `?`.
#![tactic(auto)]

#[cfg(test)]
mod scripts;
