//! The sets of a worked list that have no proper subset there.
#![tactic(auto)]

#[cfg(test)]
mod minimal;
