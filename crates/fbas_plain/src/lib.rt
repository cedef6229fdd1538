//! Plain, slow programs beside the definitions: each tries everything and counts nothing, and its contract is a definition.
//! The tests of `fbas_tests` show by them, on worked examples, that the definitions say what was meant.
#![tactic(auto)]

ghost use Rattle.std.specs.Prelude.{◌≡◌, ℕ, ◌<◌, ◌≤◌, ◌↔◌, length, IsTrue};
ghost use Rattle.fbas_model.specs.Nodes.{Nodes, members, ◌∪◌, Meets};
ghost use Rattle.fbas_model.specs.QuorumSets.{HasChoiceWithin, IsBelow, AreBelow};
ghost use Rattle.fbas_model.specs.Fbas.{HasSliceWithin, Quorum, MeetsQuorums, Intersects, Available};
ghost use Rattle.fbas_model.specs.Lists.{inner_entries, entries_of};
ghost use Rattle.fbas_plain.specs.Plain.{HasPickWithin, IsWellFormed, AgreeBelow};

use name_set::NodeSet;
use quorum_set::QuorumSet;

/// Whether the node is in the one set or in the other.
fn in_either(node: u32, u: &NodeSet, faulty: &NodeSet) -> bool
    requires same_n { length faulty.now ≡ length u.now }
    requires below { node < length u.now }
    ensures { result ≡ (members u.now ∪ members faulty.now) node }
{
    u.has(node) || faulty.has(node)
}

/// Whether `k` of the inner quorum sets have choices in the union of the two sets. Each is passed over, or taken.
#[cycle(choices)]
fn picks_inner(inner: &[QuorumSet], k: u64, u: &NodeSet, faulty: &NodeSet) -> bool
    requires same_n { length faulty.now ≡ length u.now }
    requires below { AreBelow (length u.now) (inner_entries inner.now) }
    ensures { IsTrue result ↔ HasPickWithin (inner_entries inner.now) k (members u.now ∪ members faulty.now) }
{
    match inner.split_first() {
        Some((first, rest)) => {
            picks_inner(rest, k, u, faulty)
                || (k > 0
                    && has_choice_within_either(first, u, faulty)
                    && picks_inner(rest, k - 1, u, faulty))
        }
        None => k == 0,
    }
}

/// Whether `k` of the nodes and of the inner quorum sets have parts in the union of the two sets. Each is passed over, or
/// taken.
#[cycle(choices)]
fn picks(nodes: &[u32], inner: &[QuorumSet], k: u64, u: &NodeSet, faulty: &NodeSet) -> bool
    requires same_n { length faulty.now ≡ length u.now }
    requires below { AreBelow (length u.now) (entries_of nodes.now inner.now) }
    ensures { IsTrue result ↔ HasPickWithin (entries_of nodes.now inner.now) k (members u.now ∪ members faulty.now) }
{
    match nodes.split_first() {
        Some((node, rest)) => {
            picks(rest, inner, k, u, faulty)
                || (k > 0 && in_either(*node, u, faulty) && picks(rest, inner, k - 1, u, faulty))
        }
        None => picks_inner(inner, k, u, faulty),
    }
}

/// Whether some choice lies inside the union of the two sets. Every choice is tried: O(2^e) for e entries at all depths.
#[cycle(choices)]
pub fn has_choice_within_either(set: &QuorumSet, u: &NodeSet, faulty: &NodeSet) -> bool
    requires same_n { length faulty.now ≡ length u.now }
    requires below { IsBelow (length u.now) set.now }
    ensures { IsTrue result ↔ HasChoiceWithin set.now (members u.now ∪ members faulty.now) }
{
    1 <= set.threshold && picks(&set.validators, &set.inner, set.threshold, u, faulty)
}

/// Whether some choice lies inside the set. Every choice is tried: O(2^e) for e entries at all depths.
pub fn has_choice_within(set: &QuorumSet, u: &NodeSet) -> bool
    requires { IsBelow (length u.now) set.now }
    ensures { IsTrue result ↔ HasChoiceWithin set.now (members u.now) }
{
    has_choice_within_either(set, u, u)
}

/// Whether the node has a quorum slice (Mazières 2015) that lies in `u` once the faulty nodes are deleted. Every slice is
/// tried: O(2^e) for e entries of its quorum set.
pub fn has_slice_within(sets: &[Option<QuorumSet>], v: u32, u: &NodeSet, faulty: &NodeSet) -> bool
    requires formed { IsWellFormed sets.now }
    requires node { v < length sets.now }
    requires same_n { length u.now ≡ length sets.now }
    requires same_faulty { length faulty.now ≡ length sets.now }
    ensures { IsTrue result ↔ HasSliceWithin sets.now (members faulty.now) v (members u.now) }
{
    match &sets[v as usize] {
        Some(set) => in_either(v, u, faulty) && has_choice_within_either(set, u, faulty),
        None => false,
    }
}

/// Whether `u` is a quorum (Mazières 2015) once the faulty nodes are deleted. Every slice of its members is tried:
/// O(n 2^e) for n nodes with e entries each.
pub fn is_quorum(sets: &[Option<QuorumSet>], u: &NodeSet, faulty: &NodeSet) -> bool
    requires formed { IsWellFormed sets.now }
    requires same_n { length u.now ≡ length sets.now }
    requires same_faulty { length faulty.now ≡ length sets.now }
    ensures { IsTrue result ↔ Quorum sets.now (members faulty.now) (members u.now) }
{
    if u.is_empty() {
        return false;
    }
    if u.meets(faulty) {
        return false;
    }
    for v in 0..sets.len() as u32 {
        if u.has(v) && !has_slice_within(sets, v, u, faulty) {
            return false;
        }
    }
    true
}

/// Whether `s` meets `u`, if that is a quorum.
fn meets_if_quorum(sets: &[Option<QuorumSet>], s: &NodeSet, faulty: &NodeSet, u: &NodeSet) -> bool
    requires formed { IsWellFormed sets.now }
    requires same_s { length s.now ≡ length sets.now }
    requires same_n { length u.now ≡ length sets.now }
    requires same_faulty { length faulty.now ≡ length sets.now }
    ensures { IsTrue result ↔ (Quorum sets.now (members faulty.now) (members u.now) → Meets (members s.now) (members u.now)) }
{
    !is_quorum(sets, u, faulty) || s.meets(u)
}

/// Whether `s` meets each quorum whose nodes below `v` are those of `u`. Each node from `v` on is left out, and put in.
fn meets_each_from(
    sets: &[Option<QuorumSet>],
    s: &NodeSet,
    faulty: &NodeSet,
    v: u32,
    u: &mut NodeSet,
) -> bool
    requires formed { IsWellFormed sets.now }
    requires same_s { length s.now ≡ length sets.now }
    requires same_n { length u.old ≡ length sets.now }
    requires same_faulty { length faulty.now ≡ length sets.now }
    requires node { v ≤ length sets.now }
    ensures same_n { length u.new ≡ length u.old }
    ensures kept { AgreeBelow v (members u.old) (members u.new) }
    ensures meets { IsTrue result ↔ ((w : Nodes) → AgreeBelow v (members u.old) w → Quorum sets.now (members faulty.now) w → Meets (members s.now) w) }
{
    if v as usize == sets.len() {
        return meets_if_quorum(sets, s, faulty, u);
    }
    u.take(v);
    if !meets_each_from(sets, s, faulty, v + 1, u) {
        return false;
    }
    u.put(v);
    meets_each_from(sets, s, faulty, v + 1, u)
}

/// Whether `s` meets every quorum once the faulty nodes are deleted. Every set of nodes is tried: O(2^n) tests of a quorum.
pub fn meets_quorums(sets: &[Option<QuorumSet>], s: &NodeSet, faulty: &NodeSet) -> bool
    requires formed { IsWellFormed sets.now }
    requires same_n { length s.now ≡ length sets.now }
    requires same_faulty { length faulty.now ≡ length sets.now }
    ensures { IsTrue result ↔ MeetsQuorums sets.now (members faulty.now) (members s.now) }
{
    let mut u = s.copy();
    meets_each_from(sets, s, faulty, 0, &mut u)
}

/// Whether `first`, if it is a quorum, meets every quorum. `second` is overwritten.
fn meets_all_if_quorum(
    sets: &[Option<QuorumSet>],
    faulty: &NodeSet,
    first: &NodeSet,
    second: &mut NodeSet,
) -> bool
    requires formed { IsWellFormed sets.now }
    requires same_n { length first.now ≡ length sets.now }
    requires same_second { length second.old ≡ length sets.now }
    requires same_faulty { length faulty.now ≡ length sets.now }
    ensures same_second { length second.new ≡ length second.old }
    ensures meets { IsTrue result ↔ (Quorum sets.now (members faulty.now) (members first.now) → MeetsQuorums sets.now (members faulty.now) (members first.now)) }
{
    !is_quorum(sets, first, faulty) || meets_each_from(sets, first, faulty, 0, second)
}

/// Whether each quorum whose nodes below `v` are those of `first` meets every quorum. Each node from `v` on is left out, and
/// put in. `second` is overwritten.
fn all_meet_from(
    sets: &[Option<QuorumSet>],
    faulty: &NodeSet,
    v: u32,
    first: &mut NodeSet,
    second: &mut NodeSet,
) -> bool
    requires formed { IsWellFormed sets.now }
    requires same_n { length first.old ≡ length sets.now }
    requires same_second { length second.old ≡ length sets.now }
    requires same_faulty { length faulty.now ≡ length sets.now }
    requires node { v ≤ length sets.now }
    ensures same_n { length first.new ≡ length first.old }
    ensures same_second { length second.new ≡ length second.old }
    ensures kept { AgreeBelow v (members first.old) (members first.new) }
    ensures meet { IsTrue result ↔ ((w : Nodes) → AgreeBelow v (members first.old) w → Quorum sets.now (members faulty.now) w → MeetsQuorums sets.now (members faulty.now) w) }
{
    if v as usize == sets.len() {
        return meets_all_if_quorum(sets, faulty, first, second);
    }
    first.take(v);
    if !all_meet_from(sets, faulty, v + 1, first, second) {
        return false;
    }
    first.put(v);
    all_meet_from(sets, faulty, v + 1, first, second)
}

/// Whether every two quorums share a node once the faulty nodes are deleted. Every pair of sets of nodes is tried: O(4^n)
/// tests of a quorum.
pub fn intersects(sets: &[Option<QuorumSet>], faulty: &NodeSet) -> bool
    requires formed { IsWellFormed sets.now }
    requires same_faulty { length faulty.now ≡ length sets.now }
    ensures { IsTrue result ↔ Intersects sets.now (members faulty.now) }
{
    let mut first = faulty.copy();
    let mut second = faulty.copy();
    all_meet_from(sets, faulty, 0, &mut first, &mut second)
}

/// Whether no node is outside `b`, or the nodes outside `b` are a quorum of the whole system. Costs what `is_quorum` does.
pub fn available(sets: &[Option<QuorumSet>], b: &NodeSet) -> bool
    requires formed { IsWellFormed sets.now }
    requires same_n { length b.now ≡ length sets.now }
    ensures { IsTrue result ↔ Available sets.now (members b.now) }
{
    let mut none = b.copy();
    none.clear();
    let mut rest = none.copy();
    rest.fill();
    rest.minus(b);
    rest.is_empty() || is_quorum(sets, &rest, &none)
}
