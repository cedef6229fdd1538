//! Reads the files that a command line names, to what is asked or to a refusal.
#![tactic(auto)]

mod checking;
mod early;
mod edits;
mod files;
mod formula;
mod names;
mod operands;
mod orgs;
mod parts;
mod question;
mod reading;
mod reply;
mod searches;
mod status;
mod word;

pub use early::Early;
pub use edits::Edits;
pub use formula::version_of;
pub use question::{Origin, Question};
pub use reading::{Asked, ask_by_words};
pub use reply::{Reply, Text, says};
pub use searches::Search;
pub use status::Status;
pub use word::Word;
