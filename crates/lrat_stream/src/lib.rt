//! Step lines as a stream: a line comes in parts of any size, and its hints go to the checker one after another, so that no
//! list of them is kept.
#![tactic(auto)]

mod reader;
mod spelled;
mod words;

pub use lrat_checker::Checker;
pub use lrat_model::{Lit, StepFault};
pub use reader::StepReader;
pub use words::{MOST_HINTS, Stage, StepWords};
