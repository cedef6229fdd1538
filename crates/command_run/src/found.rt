//! What the search of each command finds.
use blocking_lists::ListOutcome;
use group_lists::GroupOutcome;
use least_quorum::LeastOutcome;
use node_json::Groups;
use quorum_questions::Answer;

/// Whether every two quorums share a node, where `intersect` asks it.
#[derive(Drop)]
pub struct IntersectFound(pub Answer);

/// The same of `splits`, whose set is deleted with the faulty nodes.
#[derive(Drop)]
pub struct SplitsFound(pub Answer);

/// The same of `dset`, whose set is deleted.
#[derive(Drop)]
pub struct DsetFound(pub Answer);

/// The same of a trial, in which they do.
#[derive(Drop)]
pub struct TrialFound(pub Answer);

/// All minimal blocking sets.
#[derive(Drop)]
pub struct BlockingFound(pub ListOutcome);

/// All minimal quorums.
#[derive(Drop)]
pub struct QuorumsFound(pub ListOutcome);

/// A smallest quorum, where the greatest one has this many nodes.
#[derive(Drop)]
pub struct LeastFound {
    pub nodes: u32,
    pub outcome: LeastOutcome,
}

/// All minimal blocking sets of these groups, by an organisations file of this digest.
#[derive(Drop)]
pub struct OrgBlockingFound {
    pub digest: [u8; 32],
    pub groups: Groups,
    pub outcome: GroupOutcome,
}
