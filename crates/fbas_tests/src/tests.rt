//! The systems are written as configurations, and sets of nodes as lists of names.

ghost use Rattle.std.specs.Prelude.{◌≡◌, length, IfOk, IfSome};
ghost use Rattle.fbas_model.specs.Nodes.{members};
ghost use Rattle.fbas_model.specs.Fbas.{IsClosed};

use crate::shared::{equal, same, system_of};
use fbas_core::System;
use greatest_quorum::{blocks, minimal_block, minimal_quorum};
use name_set::{NameFault, NodeSet, read_names};
use std::alloc::{AllocError, Global};
use std::process::Abort;

const TWO_OF_THREE: &str =
    r#"[{"publicKey":"a","quorumSet":{"threshold":2,"validators":["a","b","c"]}},{"publicKey":"b","quorumSet":{"threshold":2,"validators":["a","b","c"]}},{"publicKey":"c","quorumSet":{"threshold":2,"validators":["a","b","c"]}}]"#;

const REPEATED_ENTRY: &str =
    r#"[{"publicKey":"a","quorumSet":{"threshold":2,"validators":["b","b"]}},{"publicKey":"b","quorumSet":{"threshold":1,"validators":["b"]}}]"#;

// Two pairs that know nothing of each other, and a node without a quorum set.
const TWO_PAIRS: &str =
    r#"[{"publicKey":"d","quorumSet":{"threshold":2,"validators":["c","d"]}},{"publicKey":"c","quorumSet":{"threshold":2,"validators":["c","d"]}},{"publicKey":"b","quorumSet":{"threshold":2,"validators":["a","b"]}},{"publicKey":"a","quorumSet":{"threshold":2,"validators":["a","b"]}},{"publicKey":"bb"}]"#;

// Each node needs the one before it; the last of them has thresholds that leave no choice.
const CHAIN: &str =
    r#"[{"publicKey":"d","quorumSet":{"threshold":1,"validators":["c"]}},{"publicKey":"c","quorumSet":{"threshold":1,"validators":["b"]}},{"publicKey":"b","quorumSet":{"threshold":9,"validators":[],"innerQuorumSets":[{"threshold":0,"validators":["a"]}]}},{"publicKey":"e","quorumSet":{"threshold":1,"validators":["d"]}}]"#;

// The set of the names in a list.
fn set_of(system: &System, list: &str) -> Result<NodeSet, NameFault>
    ensures { IfOk result (λ set. length set ≡ length system.now.sets) }
{
    read_names(list.as_bytes(), system.names())
}

/// What is made minimal.
#[derive(Clone, Copy)]
enum Kind {
    Quorum,
    BlockingSet,
}

// Makes the set minimal, if it is of its kind without the faulty nodes.
fn is_made_minimal(system: &System, kind: Kind, set: &mut NodeSet, faulty: &NodeSet) -> bool
    requires set { length set.old ≡ length system.now.sets }
    requires same_faulty { length faulty.now ≡ length system.now.sets }
    ensures { length set.new ≡ length set.old }
{
    let mut scratch = NodeSet::new(system.len());
    match kind {
        Kind::Quorum if system.is_quorum(set, faulty) => {
            minimal_quorum(system, set, faulty, &mut scratch);
            true
        }
        Kind::BlockingSet if !set.meets(faulty) && blocks(system, set, faulty, &mut scratch) => {
            minimal_block(system, set, faulty, &mut scratch);
            true
        }
        _ => false,
    }
}

// Whether a list is made a minimal one without the faulty nodes.
fn is_minimal(
    system: &System,
    kind: Kind,
    [list, faulty, minimal]: [&str; 3],
) -> Result<bool, NameFault> {
    let mut set = set_of(system, list)?;
    let faulty = set_of(system, faulty)?;
    let minimal = set_of(system, minimal)?;
    Ok(is_made_minimal(system, kind, &mut set, &faulty) && set.same(&minimal))
}

// Fails the test unless it is.
fn wants_minimal(rt: &impl Abort, alloc: Global, config: &str, kind: Kind, lists: [&str; 3]) {
    let system = system_of(rt, alloc, config);
    equal(rt, &is_minimal(&system, kind, lists), &Ok(true), lists[0]);
    drop(system);
}

#[test]
fn a_minimal_quorum_of_a_repeated_entry(rt: HostRuntime) {
    let lists = ["a,b", "", "b"];
    wants_minimal(&rt, rt.alloc(), REPEATED_ENTRY, Kind::Quorum, lists);
}

#[test]
fn a_minimal_blocking_set_of_two_of_three(rt: HostRuntime) {
    let lists = ["b,c", "a", "b,c"];
    wants_minimal(&rt, rt.alloc(), TWO_OF_THREE, Kind::BlockingSet, lists);
}

// The trust closure of the node that has the name.
fn closure_of_name(system: &System, name: &str) -> Result<NodeSet, NameFault>
    ensures size { IfOk result (λ set. length set ≡ length system.now.sets) }
    ensures closed { IfOk result (λ set. IsClosed system.now.sets (members set)) }
{
    match system.find(name.as_bytes()) {
        Some(v) => Ok(system.closure(v)),
        None => Err(NameFault::Unknown(1)),
    }
}

// The system restricted to the trust closure of the node, and the list cut to it.
fn part_of(alloc: Global, system: &System, name: &str, list: &str) -> Option<(System, NodeSet)>
    ensures { IfSome result (λ r. length r.1 ≡ length r.0.sets) }
{
    let kept = closure_of_name(system, name).ok()?;
    let set = set_of(system, list).ok()?;
    let part = system.restrict(alloc, &kept).ok()?;
    Some((part, system.cut(&set, &kept)))
}

// Whether the list is a quorum without the faulty nodes.
fn is_quorum(system: &System, list: &str, faulty: &NodeSet) -> Result<bool, NameFault>
    requires { length faulty.now ≡ length system.now.sets }
{
    Ok(system.is_quorum(&set_of(system, list)?, faulty))
}

// Whether the set is the list.
fn is_list(system: &System, set: &NodeSet, list: &str) -> Result<bool, NameFault>
    requires { length set.now ≡ length system.now.sets }
{
    Ok(set.same(&set_of(system, list)?))
}

// Whether the faulty nodes of a pair are d, and whether c is a quorum without them and with them.
fn pair_shown(part: &System, faulty: &NodeSet) -> Result<(bool, bool, bool), NameFault>
    requires { length faulty.now ≡ length part.now.sets }
{
    let none = NodeSet::new(part.len());
    let is_cut = is_list(part, faulty, "d")?;
    let without = is_quorum(part, "c", faulty)?;
    Ok((is_cut, without, is_quorum(part, "c", &none)?))
}

// The same of the second pair.
fn second_pair(alloc: Global, system: &System) -> Option<(bool, bool, bool)> {
    let (part, faulty) = part_of(alloc, system, "c", "b,d")?;
    let shown = pair_shown(&part, &faulty).ok();
    drop(part);
    shown
}

#[test]
fn a_pair_alone_keeps_its_quorums(rt: HostRuntime) {
    let system = system_of(&rt, rt.alloc(), TWO_PAIRS);
    let found = second_pair(rt.alloc(), &system);
    equal(&rt, &found, &Some((true, true, false)), "a pair");
    drop(system);
}

// Whether the faulty nodes of a part of three nodes are b, its entries, its nodes without a quorum set, and its names.
fn part_shown(alloc: Global, part: &System, faulty: &NodeSet) -> Result<String, AllocError>
    requires { length faulty.now ≡ length part.now.sets }
{
    let names = part.names();
    if names.len() != 3 {
        return String::from_str(alloc, "not three nodes");
    }
    let list = [names.name(0), names.name(1), names.name(2)];
    let is_cut = is_list(part, faulty, "b");
    let (entries, unset) = (part.entries(), part.unset());
    format!(in alloc; "{is_cut:?} {entries} {unset} {list:?}")
}

// The same of the part after c.
fn behind_c(alloc: Global, system: &System) -> Result<String, AllocError> {
    match part_of(alloc, system, "c", "b,e") {
        Some((part, faulty)) => {
            let shown = part_shown(alloc, &part, &faulty);
            drop(part);
            shown
        }
        None => String::from_str(alloc, "no part"),
    }
}

#[test]
fn a_chain_is_cut_behind_a_node(rt: HostRuntime) {
    let system = system_of(&rt, rt.alloc(), CHAIN);
    let want = "Ok(true) 3 1 [[97], [98], [99]]";
    same(&rt, behind_c(rt.alloc(), &system), want);
    drop(system);
}
