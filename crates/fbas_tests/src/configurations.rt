//! A configuration with members of all kinds, read to a system.

use crate::shared::{same, system_of};
use fbas_core::System;
use name_set::NodeSet;
use std::alloc::{AllocError, Global};

const NETWORK: &str = "[
 {\"ip\":\"10.0.0.1\",\"port\":11625,\"publicKey\":\"GC\",\"active\":true,\"isValidating\":true,\"index\":0.0067,
  \"geoData\":{\"countryCode\":\"DE\",\"latitude\":1.25},
  \"quorumSet\":{\"threshold\":9007199254740991,\"validators\":[\"GC\"],\"innerQuorumSets\":[]},
  \"quorumSetHashKey\":null,\"statistics\":{\"has24HourStats\":false}},
 {\"publicKey\":\"GA\",\"name\":\"A\",
  \"quorumSet\":{\"threshold\":2,\"validators\":[\"GD\"],\"innerQuorumSets\":[{\"threshold\":1,\"validators\":[\"GA\",\"GB\"]}]}},
 {\"publicKey\":\"GB\",\"quorumSet\":{\"threshold\":1,\"validators\":[\"GA\"]}},
 {\"publicKey\":\"GD\",\"quorumSet\":{\"threshold\":1,\"validators\":[\"GA\",\"GC\"]}}
]";

// The places of the names.
fn places(alloc: Global, system: &System) -> Result<String, AllocError> {
    let (a, b) = (system.find(b"GA"), system.find(b"GB"));
    let (c, d) = (system.find(b"GC"), system.find(b"GD"));
    format!(in alloc; "{a:?} {b:?} {c:?} {d:?}")
}

// Whether the node GA is a quorum, and with GD, and with GC too.
fn quorums(alloc: Global, system: &System) -> Result<String, AllocError> {
    if system.len() != 4 {
        return String::from_str(alloc, "not four nodes");
    }
    let faulty = NodeSet::new(4);
    let mut nodes = NodeSet::new(4);
    nodes.put(0);
    let one = system.is_quorum(&nodes, &faulty);
    nodes.put(3);
    let two = system.is_quorum(&nodes, &faulty);
    nodes.put(2);
    let three = system.is_quorum(&nodes, &faulty);
    format!(in alloc; "{one} {two} {three}")
}

#[test]
fn reads_a_network(rt: HostRuntime) {
    let alloc = rt.alloc();
    let system = system_of(&rt, alloc, NETWORK);
    let found = places(alloc, &system);
    same(&rt, found, "Some(0) Some(1) Some(2) Some(3)");
    same(&rt, quorums(alloc, &system), "false true false");
    drop(system);
}
