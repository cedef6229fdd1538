//! Why an edit is refused.

ghost use Rattle.std.specs.Prelude.{◌≡◌};
ghost use Rattle.whatif_session.specs.declared.faults.EditFault.TheVariants.{Memory};

use std::alloc::{AllocError, AllocFailed};
use std::fmt;
use thiserror::Error;

/// Why a line of a script is refused: the first fault, in this order.
#[derive(Clone, Copy, PartialEq, Eq, Error)]
pub enum EditFault {
    /// The line is no edit.
    #[error("bad-line")]
    BadLine,
    /// The node is not one of the system.
    #[error("unknown-node")]
    UnknownNode,
    /// The node has no quorum set, or none at the path.
    #[error("no-set")]
    NoSet,
    /// The node has a quorum set already.
    #[error("already")]
    Already,
    /// The name is not among the validators.
    #[error("not-there")]
    NotThere,
    /// There would be this many nodes, more than 16,384.
    #[error("too-many-nodes {0}")]
    TooManyNodes(u64),
    /// There would be this many entries, more than 1,000,000.
    #[error("too-many-entries {0}")]
    TooManyEntries(u64),
    /// There was too little memory.
    #[error("out of memory")]
    Memory,
}

// The debug form of a fault is its text: a derived one costs much to prove, and shows no more.
impl fmt::Debug for EditFault {
    fn fmt<W: fmt::Write>(&self, f: &mut fmt::Formatter<W>) -> fmt::Result {
        fmt::Display::fmt(self, f)
    }
}

impl From<AllocError> for EditFault {
    ghost from_gives = { λ _ e. e ≡ Memory };

    fn from(_e: AllocError) -> EditFault {
        EditFault::Memory
    }
}

impl<T: Drop> From<AllocFailed<T>> for EditFault {
    ghost from_gives = { λ _ e. e ≡ Memory };

    fn from(_e: AllocFailed<T>) -> EditFault {
        EditFault::Memory
    }
}

/// Why a script is refused: its first fault, and the number of that line, counted from 1.
#[derive(Clone, Copy, PartialEq, Eq, Debug)]
pub struct ScriptFault {
    pub line: u64,
    pub fault: EditFault,
}
