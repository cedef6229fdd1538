//! Why nothing is asked.
ghost use Rattle.std.specs.Prelude.{◌≡◌};

use crate::reply::Reply;
use std::alloc::AllocError;

/// A refusal, or a failing: nothing is asked.
#[derive(Drop)]
pub enum Early {
    /// The words, the names in them or a file are refused, which is told.
    Refused(Reply),
    /// A file could not be read.
    Read,
    /// Memory is wanting.
    Memory,
}

impl From<AllocError> for Early {
    ghost use Rattle.request_reading.specs.declared.early.Early.TheVariants.{Memory};

    ghost from_gives = { λ _ e. e ≡ Memory };

    fn from(_: AllocError) -> Early {
        Early::Memory
    }
}
