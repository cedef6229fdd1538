//! What a certificate is about.
use certificate_file::Header;
use fbas_core::System;

/// What a certificate is about: a system, the part of it that the header names, and the digest of the configuration.
#[derive(Clone, Copy)]
pub struct Certified<'a> {
    /// The digest of the configuration.
    pub digest: &'a [u8; 32],
    /// The node of whose trust closure the certificate speaks, if any, and the nodes that are deleted, by their numbers in the
    /// whole system.
    pub header: &'a Header,
    pub whole: &'a System,
    /// The part, whose nodes have numbers of their own.
    pub part: &'a System,
}
