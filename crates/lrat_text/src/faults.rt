//! Why a line is no step.
use std::alloc::AllocError;
use thiserror::Error;

/// Why a line is no step: the first fault of its words in order.
#[derive(Clone, Copy, Debug, PartialEq, Eq, Error)]
pub enum LineFault {
    /// A word that is no number in the range of its place.
    #[error("a word is no number that may stand there")]
    BadNumber,
    /// The line ends before the 0 that closes its last list.
    #[error("the closing 0 is missing")]
    NoZero,
    /// A word after the 0 that closes the last list.
    #[error("a word follows the closing 0")]
    Extra,
    /// Memory ran out.
    #[error("out of memory")]
    Memory,
}

impl From<AllocError> for LineFault {
    ghost use Rattle.lrat_text.specs.declared.faults.LineFault.TheVariants.{Memory};
    ghost use Rattle.std.specs.Prelude.{◌≡◌};

    ghost from_gives = { λ _ e. e ≡ Memory };

    fn from(_: AllocError) -> LineFault {
        LineFault::Memory
    }
}
