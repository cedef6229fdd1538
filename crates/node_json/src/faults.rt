//! What a configuration, or a file of organisations, may be refused for.

ghost use Rattle.std.specs.Prelude.{◌≡◌};
ghost use Rattle.node_json.specs.declared.faults.ConfigFault.TheVariants.{Memory};

use std::alloc::{AllocError, AllocFailed};
use std::fmt;
use thiserror::Error;

/// What is wrong with a quorum set.
#[derive(Clone, Copy, PartialEq, Eq, Error)]
pub enum SetFault {
    /// It is no object.
    #[error("shape")]
    Shape,
    /// Its threshold is missing, or no whole number from 0 to 2^64 - 1.
    #[error("threshold")]
    Threshold,
    /// Its validators are no array of keys.
    #[error("validators")]
    Validators,
    /// Its inner quorum sets are no array.
    #[error("inner")]
    Inner,
}

// The debug form of each fault is its text: a derived one costs much to prove, and shows no more.
impl fmt::Debug for SetFault {
    fn fmt<W: fmt::Write>(&self, f: &mut fmt::Formatter<W>) -> fmt::Result {
        fmt::Display::fmt(self, f)
    }
}

/// Why the bytes are no configuration: the first fault. Elements of the array are counted from 0.
#[derive(Clone, Copy, PartialEq, Eq, Error)]
pub enum ConfigFault {
    /// The bytes are no JSON text.
    #[error("not-json")]
    NotJson,
    /// The text is no array.
    #[error("not-nodes")]
    NotNodes,
    /// An element is no object.
    #[error("not-node {0}")]
    NotNode(u64),
    /// The `publicKey` of an element is missing, or no key.
    #[error("bad-key {0}")]
    BadKey(u64),
    /// An element has the key of an earlier one.
    #[error("duplicate {0}")]
    Duplicate(u64),
    /// A quorum set of an element lies more than 32 deep.
    #[error("too-deep {0}")]
    TooDeep(u64),
    /// A quorum set of an element has this fault.
    #[error("bad-quorum-set {0} {1}")]
    BadQuorumSet(u64, SetFault),
    /// There are this many nodes, more than 16,384.
    #[error("too-many-nodes {0}")]
    TooManyNodes(u64),
    /// The quorum sets have this many entries at all depths, more than 1,000,000.
    #[error("too-many-entries {0}")]
    TooManyEntries(u64),
    /// There was too little memory.
    #[error("out of memory")]
    Memory,
}

impl fmt::Debug for ConfigFault {
    fn fmt<W: fmt::Write>(&self, f: &mut fmt::Formatter<W>) -> fmt::Result {
        fmt::Display::fmt(self, f)
    }
}

impl From<AllocError> for ConfigFault {
    ghost from_gives = { λ _ e. e ≡ Memory };

    fn from(_e: AllocError) -> ConfigFault {
        ConfigFault::Memory
    }
}

impl<T: Drop> From<AllocFailed<T>> for ConfigFault {
    ghost from_gives = { λ _ e. e ≡ Memory };

    fn from(_e: AllocFailed<T>) -> ConfigFault {
        ConfigFault::Memory
    }
}

/// Why the bytes are no organisations: the first fault. Elements of the array are counted from 0.
#[derive(Clone, Copy, PartialEq, Eq, Error)]
pub enum OrgFault {
    /// The bytes are no JSON text.
    #[error("not-json")]
    NotJson,
    /// The text is no array.
    #[error("not-orgs")]
    NotOrgs,
    /// An element is no object, or its `id` is missing or no key, or its `validators` are no array of keys.
    #[error("bad-org {0}")]
    BadOrg(u64),
    /// An element has the `id` of an earlier one.
    #[error("duplicate-org {0}")]
    DuplicateOrg(u64),
    /// There are this many organisations, more than 4,096.
    #[error("too-many-orgs {0}")]
    TooManyOrgs(u64),
    /// There was too little memory.
    #[error("out of memory")]
    Memory,
}

impl fmt::Debug for OrgFault {
    fn fmt<W: fmt::Write>(&self, f: &mut fmt::Formatter<W>) -> fmt::Result {
        fmt::Display::fmt(self, f)
    }
}

impl From<AllocError> for OrgFault {
    ghost use Rattle.node_json.specs.declared.faults.OrgFault.TheVariants.{Memory};
    ghost use Rattle.std.specs.Prelude.{◌≡◌};

    ghost from_gives = { λ _ e. e ≡ Memory };

    fn from(_e: AllocError) -> OrgFault {
        OrgFault::Memory
    }
}

impl<T: Drop> From<AllocFailed<T>> for OrgFault {
    ghost use Rattle.node_json.specs.declared.faults.OrgFault.TheVariants.{Memory};
    ghost use Rattle.std.specs.Prelude.{◌≡◌};

    ghost from_gives = { λ _ e. e ≡ Memory };

    fn from(_e: AllocFailed<T>) -> OrgFault {
        OrgFault::Memory
    }
}
