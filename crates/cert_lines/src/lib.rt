//! The lines of a certificate: each is read whole, within the limits on its number and its length, and its words say a digest,
//! a list of names, the size of a formula or of a counter, or a step.
#![tactic(auto)]

mod faults;
mod lines;
mod pieces;
mod proof;
mod saying;
mod steps;
mod words;

pub use faults::{CertError, CheckError};
pub use lines::{Lines, MAX_LINE_BYTES, MAX_LINES};
pub use lrat_model::{Step, StepFault};
pub use proof::{ProofLine, proof_line};
pub use saying::{Counts, counter_in, counts_in, digits_in, orgs_digits_in, step_in};
pub use steps::line_or_step;
pub use words::{Words, begins, follows, is_name};
