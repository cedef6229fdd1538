//! Why a certificate is not accepted, or could not be read to its end.
use lrat_model::StepFault;
use std::alloc::AllocError;
use std::fmt;
use thiserror::Error;

/// Why a certificate is not accepted: its first fault, where lines count from 1.
#[derive(Drop, Error)]
pub enum CertError {
    /// This line is not one that may stand there.
    #[error("line {0} is not one that may stand there")]
    BadLine(u64),
    /// This line has more than 134,217,728 bytes before its line feed.
    #[error("line {0} is too long")]
    LineTooLong(u64),
    /// There are more than 17,179,869,184 lines.
    #[error("there are too many lines")]
    TooManyLines,
    /// The certificate is for the configuration of the first digest, and not for that of the second.
    #[error("the certificate is for another configuration")]
    Digest([u8; 32], [u8; 32]),
    /// The certificate is of organisations, and no file of them was given.
    #[error("no organisations were given")]
    NoOrgs,
    /// The certificate is for the organisations of the first digest, and not for those of the second.
    #[error("the certificate is for other organisations")]
    OrgsDigest([u8; 32], [u8; 32]),
    /// This line names a node that the system doesn't have, or a group that has no variable.
    #[error("line {0} names a node or a group that the system does not have")]
    UnknownNode(u64),
    /// The nodes of this line are no quorum once the faulty ones are deleted.
    #[error("the nodes of line {0} are no quorum")]
    NotQuorum(u64),
    /// The nodes of this line do not meet every quorum once the faulty ones are deleted, or one of them is faulty.
    #[error("the nodes of line {0} do not block")]
    NotBlocking(u64),
    /// Some of the nodes of this line block without the others.
    #[error("the nodes of line {0} block with some to spare")]
    NotMinimal(u64),
    /// The quorum of this line has no fewer nodes than the one that was listed before it.
    #[error("the quorum of line {0} is not smaller than the one before it")]
    NotSmaller(u64),
    /// The quorum of this line shares nodes with the one before it, of which this is the least.
    #[error("the quorum of line {0} shares node {1} with the first one")]
    Overlap(u64, u32),
    /// The formula, or the counter, has this many variables, more than 4,000,000.
    #[error("the formula has {0} variables")]
    TooLarge(u64),
    /// The formula, or the counter, has not the variables or the clauses that this line says.
    #[error("line {0} has not the size of the formula")]
    Formula(u64),
    /// The step of this line is refused.
    #[error("the step of line {0} is refused: {1}")]
    Step(u64, StepFault),
    /// A clause held is a subset of this line's.
    #[error("the clause of line {0} is not new")]
    NotNew(u64),
    /// The refutation or the list ends on this line without the empty lemma.
    #[error("line {0} ends a proof without the empty lemma")]
    NotRefuted(u64),
    /// The input ends before the line feed of this line.
    #[error("line {0} is missing")]
    Truncated(u64),
    /// Something follows the line `end`.
    #[error("something follows the end")]
    Trailing,
    /// No memory for a line or for what it says.
    #[error("out of memory")]
    Memory,
}

/// The words that it displays: nothing shows the variants by their names.
impl fmt::Debug for CertError {
    fn fmt<W: fmt::Write>(&self, f: &mut fmt::Formatter<W>) -> fmt::Result {
        fmt::Display::fmt(self, f)
    }
}

impl From<AllocError> for CertError {
    ghost use Rattle.cert_lines.specs.declared.faults.CertError.TheVariants.{Memory};
    ghost use Rattle.std.specs.Prelude.{◌≡◌};

    ghost from_gives = { λ _ e. e ≡ Memory };

    fn from(_: AllocError) -> CertError {
        CertError::Memory
    }
}

/// Why the check of a certificate ends without its acceptance.
#[derive(Drop, Error)]
pub enum CheckError {
    /// The certificate has this fault, or there is no memory for what it says.
    #[error("{0}")]
    Cert(CertError),
    /// A call of the desk failed.
    #[error("a read failed")]
    Read,
}

/// The words that it displays: nothing shows the variants by their names.
impl fmt::Debug for CheckError {
    fn fmt<W: fmt::Write>(&self, f: &mut fmt::Formatter<W>) -> fmt::Result {
        fmt::Display::fmt(self, f)
    }
}

impl From<CertError> for CheckError {
    ghost use Rattle.cert_lines.specs.declared.faults.CheckError.TheVariants.{Cert};
    ghost use Rattle.std.specs.Prelude.{◌≡◌};

    ghost from_gives = { λ fault e. e ≡ Cert fault };

    fn from(fault: CertError) -> CheckError {
        CheckError::Cert(fault)
    }
}

impl From<AllocError> for CheckError {
    ghost use Rattle.cert_lines.specs.declared.faults.CertError.TheVariants.{Memory};
    ghost use Rattle.cert_lines.specs.declared.faults.CheckError.TheVariants.{Cert};
    ghost use Rattle.std.specs.Prelude.{◌≡◌};

    ghost from_gives = { λ _ e. e ≡ Cert Memory };

    fn from(_: AllocError) -> CheckError {
        CheckError::Cert(CertError::Memory)
    }
}
