//! What a certificate says after its header.
use blocking_lists::Journal;
use certificate_file::{Aim, Pair};
use enumeration_journal::{ListKind, Listed};
use group_lists::GroupJournal;
use lrat_text::Log;
use node_json::Groups;

/// What the lines of a certificate say after its header, up to the last. Nodes have the numbers of the part.
#[derive(Clone, Copy)]
pub enum Content<'a> {
    /// Two quorums.
    Pair(&'a Pair),
    /// A refutation or a part of one, over a formula with this many variables and clauses.
    Steps(Aim, &'a Log, u64, u64),
    /// All minimal sets of a kind, or a part of them.
    Minimal(Listed, ListKind, &'a Journal),
    /// A smallest quorum or a part of the search, where the greatest quorum has this many nodes.
    Least(u32, ListKind, &'a Journal),
    /// All minimal blocking sets of groups or a part of them, with the digest of the organisations' file.
    OrgBlocking(&'a [u8; 32], &'a Groups, ListKind, &'a GroupJournal),
}
