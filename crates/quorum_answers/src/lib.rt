//! The program over the caller's memory: words and files in, the status, the text and the certificate out.
#![tactic(auto)]

mod answer;
mod reading;

pub use answer::{QuorumEnd, answered};
pub use lent_desk::LentFiles;
