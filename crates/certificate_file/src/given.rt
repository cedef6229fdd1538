//! What a certificate is held against beside the system: the digest of its configuration, and organisations where a file of them was
//! given.
use node_json::Orgs;

/// Organisations that were read over a system.
#[derive(Drop)]
pub struct GivenOrgs {
    pub orgs: Orgs,
    /// The SHA-256 of their file.
    pub digest: [u8; 32],
}

/// What a certificate is held against beside the system.
#[derive(Drop)]
pub struct Given {
    /// The SHA-256 of the system's configuration.
    pub digest: [u8; 32],
    /// Only a certificate of organisations looks at them.
    pub orgs: Option<GivenOrgs>,
}
