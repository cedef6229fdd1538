//! What the tests share.

ghost use Rattle.std.specs.Prelude.{◌≡◌, ◌<◌, ◌≤◌, ◌^◌, length};
ghost use Rattle.fbas_model.specs.QuorumSets.{IsBelow, all_entries};

use fbas_core::System;
use name_set::{Names, NodeSet};
use node_json::read_config;
use quorum_set::QuorumSet;
use std::alloc::{AllocError, Global};
use std::fmt::Debug;
use std::process::Abort;

/// Fails the test where the values differ. It stands apart, so that the tests have no branches of it.
pub fn equal<T: PartialEq + Debug>(rt: &impl Abort, found: &T, want: &T, at: &str) {
    assert_eq!(rt; *found, *want, "at {at}");
}

/// Fails the test where the texts differ, or memory is wanting.
pub fn same(rt: &impl Abort, found: Result<String, AllocError>, want: &str) {
    let found = found.expect(rt, "memory");
    equal(rt, &found.as_str(), &want, "a text");
}

/// The nodes 0 to 3, each as a set of one. A set of more is their sum.
pub const A: u32 = 1;

pub const B: u32 = 2;

pub const C: u32 = 4;

pub const D: u32 = 8;

/// The nodes below `n` that such a sum has.
pub fn node_set(n: u32, nodes: u32) -> NodeSet
    requires { n ≤ 4 }
    ensures { length result ≡ n }
{
    let mut set = NodeSet::new(n);
    for v in 0..n {
        if (nodes >> v) & 1 == 1 {
            set.put(v);
        }
    }
    set
}

/// The system of a configuration.
pub fn system_of(rt: &impl Abort, alloc: Global, config: &str) -> System {
    read_config(alloc, config.as_bytes()).expect(rt, "a system")
}

/// The quorum set of the first node of a system, which has this many nodes.
pub fn first_set<'a>(rt: &impl Abort, system: &'a System, n: u32) -> &'a QuorumSet
    ensures small { all_entries result.now < 2 ^ 32 }
    ensures below { IsBelow n result.now }
{
    assert!(rt; system.len() == n && n > 0);
    system.quorum_set(0).expect(rt, "a quorum set")
}

fn listed(alloc: Global, names: &[&str]) -> Result<Vec<Vec<u8>>, AllocError> {
    let mut list = Vec::new(alloc);
    for name in names {
        list.push(Vec::from_slice(alloc, name.as_bytes())?)?;
    }
    Ok(list)
}

/// The names of a list, which are this many.
pub fn names_of(rt: &impl Abort, alloc: Global, list: &[&str], n: u32) -> Names
    ensures { length result ≡ n }
{
    let list = listed(alloc, list).expect(rt, "memory");
    assert!(rt; list.len() < 100);
    let names = Names::of(list).expect(rt, "memory");
    assert!(rt; names.len() == n);
    names
}
