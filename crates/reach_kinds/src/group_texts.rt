//! Groups by their texts.
ghost use Rattle.std.specs.Prelude.{◌≡◌, ◌<◌, ℕ, length, MatchOption, IfSome, IfOk, Contains, slice_get, Some};
ghost use Rattle.std.specs.List.Sorted.{IsStrictlySortedBy};
ghost use Rattle.fbas_model.specs.Names.{name_cmp};
ghost use Rattle.node_json.specs.Groups.{texts_of};
ghost use Rattle.reach_kinds.specs.Bodies.{nodes_of};
ghost use Rattle.reach_kinds.specs.GroupBodies.{groups_by_text};

use crate::places::GroupPart;
use cert_lines::{CertError, Words};
use name_set::GroupSet;
use node_json::Groups;
use std::cmp::Ordering;

/// The group of a text, the only one that has it, or none: O(log m) comparisons, where there are m groups.
fn find_group(groups: &Groups, text: &[u8]) -> Option<u32>
    requires { IsStrictlySortedBy name_cmp (texts_of groups.now) }
    ensures found { MatchOption result (Contains (texts_of groups.now) text.now → ⊥) (λ at. slice_get (texts_of groups.now) at ≡ Some text.now) }
    ensures below { IfSome result (λ at. at < length groups.now) }
    ensures only { IfSome result (λ at. (other : ℕ) → slice_get (texts_of groups.now) other ≡ Some text.now → other ≡ at) }
{
    let mut low = 0;
    let mut high = groups.len();
    while low < high {
        let middle = low + (high - low) / 2;
        match groups.text(middle).cmp(text) {
            Ordering::Less => low = middle + 1,
            Ordering::Equal => return Some(middle),
            Ordering::Greater => high = middle,
        }
    }
    None
}

/// The groups of the texts that are left, which stand on this line.
fn groups_of_texts(groups: &Groups, line: u64, texts: &mut Words<'_>) -> Result<GroupSet, CertError>
    requires { IsStrictlySortedBy name_cmp (texts_of groups.now) }
    ensures size { IfOk result (λ s. length s ≡ length groups.now) }
    ensures value { result ≡ nodes_of (texts_of groups.now) line texts.old }
{
    let mut set = GroupSet::new(groups.len());
    while let Some(text) = texts.next() {
        let Some(at) = find_group(groups, text) else {
            return Err(CertError::UnknownNode(line));
        };
        set.put(at);
    }
    Ok(set)
}

/// The groups of the texts that are left, each of which has a variable: O(k log m) comparisons for k texts.
pub fn groups_by_text(
    over: &GroupPart,
    line: u64,
    texts: &mut Words<'_>,
) -> Result<GroupSet, CertError>
    requires rising { IsStrictlySortedBy name_cmp (texts_of over.now.groups) }
    requires places { length over.now.touched ≡ length over.now.groups }
    ensures size { IfOk result (λ s. length s ≡ length over.now.groups) }
    ensures value { result ≡ groups_by_text over.now line texts.old }
{
    let set = groups_of_texts(&over.groups, line, texts)?;
    if !set.lies_in(&over.touched) {
        return Err(CertError::UnknownNode(line));
    }
    Ok(set)
}
