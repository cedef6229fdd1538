//! A desk that lends the caller's files, without a copy, and writes the text and the certificate straight into the caller's room.
#![tactic(auto)]

mod bytes;
mod desk;
mod endless;
mod files;
mod heard;
mod left;
mod spans;

pub use desk::{Lengths, LentDesk};
pub use endless::EndlessDesk;
pub use files::LentFiles;
