//! The trial configuration of some organisations: a network that shows what the whole analyser does, without a file.
#![tactic(auto)]

mod configuration;
mod network;

pub use configuration::{MOST_ORGANISATIONS, Trial};
