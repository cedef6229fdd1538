//! That `minimal_among` answers, and that its answer is put in name order.

ghost use Rattle.std.specs.Prelude.{◌≡◌, ◌<◌, length};

use enumeration_journal::rising;
use name_set::NodeSet;
use split_journal::minimal_among;
use std::alloc::{AllocError, Global};
use std::process::Abort;

/// Puts a node into the set if it is to be there.
fn put_if(set: &mut NodeSet, v: u32, is_there: bool)
    requires { v < length set.old }
    ensures { length set.new ≡ length set.old }
{
    if is_there {
        set.put(v);
    }
}

/// Of three nodes those that are to be there.
fn set_of(first: bool, second: bool, third: bool) -> NodeSet
    ensures { length result ≡ 3 }
{
    let mut set = NodeSet::new(3);
    put_if(&mut set, 0, first);
    put_if(&mut set, 1, second);
    put_if(&mut set, 2, third);
    set
}

/// The nodes of a set.
fn members_of(alloc: Global, set: &NodeSet) -> Result<Vec<u32>, AllocError> {
    let mut members = Vec::new(alloc);
    for v in set.iter() {
        members.push(v)?;
    }
    Ok(members)
}

/// The nodes of each set.
fn shown(alloc: Global, sets: &[NodeSet]) -> Result<String, AllocError> {
    let mut all = Vec::new(alloc);
    for set in sets {
        all.push(members_of(alloc, set)?)?;
    }
    format!(in alloc; "{all:?}")
}

/// Of three nodes that each need two of three, what a search may list: each node, and two nodes that one of them is part of.
fn listed(alloc: Global) -> Result<String, AllocError> {
    let sets = [
        set_of(false, false, true),
        set_of(true, true, false),
        set_of(false, true, false),
        set_of(true, false, false),
    ];
    let minimal = rising(minimal_among(alloc, &sets)?);
    shown(alloc, &minimal)
}

/// Where nobody has to lie.
fn with_nobody(alloc: Global) -> Result<String, AllocError> {
    let sets = [set_of(true, false, false), set_of(false, false, false)];
    let minimal = rising(minimal_among(alloc, &sets)?);
    shown(alloc, &minimal)
}

/// Fails the test where the texts differ, or memory is wanting.
fn same(rt: &impl Abort, found: Result<String, AllocError>, want: &str) {
    let found = found.expect(rt, "memory");
    assert_eq!(rt; found.as_str(), want);
}

#[test]
fn sets_with_a_proper_subset_are_left_out(rt: HostRuntime) {
    let alloc = rt.alloc();
    same(&rt, listed(alloc), "[[0], [1], [2]]");
    same(&rt, with_nobody(alloc), "[[]]");
}
