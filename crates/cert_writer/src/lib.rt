//! Certificates, written through a buffer: pairs, refutations, lists of minimal sets, a smallest quorum, blocking sets of groups, and partial ones. The check of `certificate_file` accepts each.
#![tactic(auto)]

mod certified;
mod content;
mod finding;
mod grouping;
mod least;
mod listing;
mod whole;
mod writer;

pub use certified::Certified;
pub use content::Content;
pub use finding::{what_is_shown_is_found, write_found};
pub use grouping::{what_is_grouped_is_found, write_groups};
pub use least::{what_is_least_is_found, write_least};
pub use listing::{what_is_listed_is_found, write_list};
pub use whole::{a_written_certificate_is_accepted, write_certificate};
pub use writer::CertWriter;
