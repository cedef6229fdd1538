// What is found in a quorum set: thresholds that leave no choice, and nodes that stand twice.

ghost use Rattle.std.specs.Prelude.{◌≡◌, ◌+◌, ◌<◌, ◌^◌, ◌==◌, ℕ, [], ◌++◌, map, length, sum_by, unwrap_or, IfOk, OnOk, OnErr, if◌then◌else◌};
ghost use Rattle.std.specs.Ordering.{nat_cmp};
ghost use Rattle.std.specs.BTreeMap.{get};
ghost use Rattle.quorum_set.specs.Findings.{repeated, found_all, threshold_found, second_times, findings_at, findings_of, HasPlaces, HoldsFirst};

use crate::QuorumSet;
use std::alloc::{AllocError, Global};
use std::collections::BTreeMap;

/// What is found in a quorum set or in one inside it, and the path of that set.
///
/// A path has the places of the inner sets from the outside in, counted from 0: the outermost set has the empty path.
#[derive(Debug, PartialEq, Eq, Drop)]
pub enum Finding {
    /// The threshold is 0 or above the number of entries, so that the set has no choice: the path, the threshold, and the
    /// number of entries.
    BadThreshold(Vec<u32>, u64, u64),
    /// A node stands more than once among the validators of the set: the path, and the node.
    Repeated(Vec<u32>, u32),
}

/// Adds what is found of a threshold.
fn find_threshold(
    alloc: Global,
    path: &[u32],
    threshold: u64,
    entries: u64,
    into: &mut Vec<Finding>,
) -> Result<(), AllocError>
    ensures ok { OnOk result (found_all into.new.items ≡ found_all into.old.items ++ threshold_found path.now threshold entries) }
    ensures err { OnErr result (found_all into.new.items ≡ found_all into.old.items) }
{
    if threshold == 0 || threshold > entries {
        let path = Vec::from_slice(alloc, path)?;
        into.push(Finding::BadThreshold(path, threshold, entries))?;
    }
    Ok(())
}

/// Counts the node once more, and gives how often it is counted by now.
fn count_more(counts: &mut BTreeMap<u32, u64>, node: u32) -> Result<u64, AllocError>
    requires { unwrap_or (get nat_cmp counts.old node) 0 + 1 < 2 ^ 64 }
    ensures count { IfOk result (λ count. count ≡ unwrap_or (get nat_cmp counts.old node) 0 + 1) }
    ensures counted { OnOk result ((q : ℕ) → unwrap_or (get nat_cmp counts.new q) 0
        ≡ (if node == q then unwrap_or (get nat_cmp counts.old q) 0 + 1 else unwrap_or (get nat_cmp counts.old q) 0)) }
{
    let count = counts.get(&node).copied().unwrap_or(0) + 1;
    counts.insert(node, count)?;
    Ok(count)
}

/// Adds the nodes that stand more than once in the list, each at the place where it stands the second time.
fn find_repeated(
    alloc: Global,
    path: &[u32],
    nodes: &[u32],
    into: &mut Vec<Finding>,
) -> Result<(), AllocError>
    ensures ok { OnOk result (found_all into.new.items ≡ found_all into.old.items ++ map (repeated path.now) (second_times [] nodes.now)) }
    ensures err { OnErr result (HoldsFirst (found_all into.old.items) (map (repeated path.now) (second_times [] nodes.now)) (found_all into.new.items)) }
{
    let mut counts = BTreeMap::new(alloc);
    for node in nodes {
        if count_more(&mut counts, *node)? == 2 {
            let path = Vec::from_slice(alloc, path)?;
            into.push(Finding::Repeated(path, *node))?;
        }
    }
    Ok(())
}

impl QuorumSet {
    /// Adds what is found in the set at this path and in those inside it.
    fn find_at(
        &self,
        alloc: Global,
        path: &mut Vec<u32>,
        into: &mut Vec<Finding>,
    ) -> Result<(), AllocError>
        requires { HasPlaces self.now }
        ensures path { OnOk result (path.new.items ≡ path.old.items) }
        ensures ok { OnOk result (found_all into.new.items ≡ found_all into.old.items ++ findings_at path.old.items self.now) }
        ensures err { OnErr result (HoldsFirst (found_all into.old.items) (findings_at path.old.items self.now) (found_all into.new.items)) }
    {
        let entries = self.validators.len() as u64 + self.inner.len() as u64;
        find_threshold(alloc, path, self.threshold, entries, into)?;
        find_repeated(alloc, path, &self.validators, into)?;
        for (at, inner) in self.inner.iter().enumerate() {
            path.push(at as u32)?;
            inner.find_at(alloc, path, into)?;
            path.pop();
        }
        Ok(())
    }

    /// Adds what is found in the quorum set: of each set first its threshold, then its repeated validators in the order of
    /// the places where they stand the second time, then what is found in its inner sets, in order.
    ///
    /// Where memory runs out, the list keeps what it held, followed by the first of the findings. O(e log e) for e entries
    /// at all depths, and the length of its path for each finding. No set in it may have 2^32 or more inner
    /// sets, since a path has their places as numbers of 32 bits; a system has a million entries at most.
    pub fn findings(&self, alloc: Global, into: &mut Vec<Finding>) -> Result<(), AllocError>
        requires { HasPlaces self.now }
        ensures ok { OnOk result (found_all into.new.items ≡ found_all into.old.items ++ findings_of self.now) }
        ensures err { OnErr result (HoldsFirst (found_all into.old.items) (findings_of self.now) (found_all into.new.items)) }
    {
        let mut path = Vec::new(alloc);
        self.find_at(alloc, &mut path, into)
    }
}
