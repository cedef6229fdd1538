//! The circuits of worked quorum sets over three nodes.

ghost use Rattle.std.specs.Prelude.{◌≡◌, ◌<◌, ◌≤◌, IfOk, All, length};
ghost use Rattle.fbas_model.specs.QuorumSets.{IsBelow};

use crate::shared::same;
use name_set::NodeSet;
use quorum_set::QuorumSet;
use std::alloc::{AllocError, Global};
use threshold_circuit::{Circuit, circuit_of};

fn of(
    alloc: Global,
    threshold: u64,
    nodes: &[u32],
    inner: Vec<QuorumSet>,
) -> Result<QuorumSet, AllocError>
    requires nodes { All (λ w. w < 3) nodes.now }
    requires inner { All (IsBelow 3) inner.items }
    ensures { IfOk result (IsBelow 3) }
{
    let validators = Vec::from_slice(alloc, nodes)?;
    Ok(QuorumSet {
        threshold,
        validators,
        inner,
    })
}

fn set(marks: [bool; 3]) -> NodeSet
    ensures { length result ≡ 3 }
{
    let mut set = NodeSet::new(3);
    for v in 0..3 {
        if marks[v as usize] {
            set.put(v);
        }
    }
    set
}

/// The circuit, and its value on the greatest quorum.
fn shown(
    alloc: Global,
    quorum_set: &QuorumSet,
    greatest: [bool; 3],
    faulty: [bool; 3],
) -> Result<String, AllocError>
    requires { IsBelow 3 quorum_set.now }
{
    let greatest = set(greatest);
    let faulty = set(faulty);
    let circuit = circuit_of(alloc, quorum_set, &greatest, &faulty)?;
    format!(in alloc; "{circuit:?} {}", circuit.value(&greatest))
}

/// A quorum set of nodes alone.
fn flat(
    alloc: Global,
    threshold: u64,
    nodes: &[u32],
    greatest: [bool; 3],
    faulty: [bool; 3],
) -> Result<String, AllocError>
    requires { All (λ w. w < 3) nodes.now }
{
    let quorum_set = of(alloc, threshold, nodes, Vec::new(alloc))?;
    shown(alloc, &quorum_set, greatest, faulty)
}

/// A quorum set of node 0 and of an inner one of the nodes 1 and 2.
fn nested(
    alloc: Global,
    threshold: u64,
    inner_threshold: u64,
    greatest: [bool; 3],
    faulty: [bool; 3],
) -> Result<String, AllocError> {
    let mut inner = Vec::new(alloc);
    inner.push(of(alloc, inner_threshold, &[1, 2], Vec::new(alloc))?)?;
    let quorum_set = of(alloc, threshold, &[0], inner)?;
    shown(alloc, &quorum_set, greatest, faulty)
}

#[test]
fn circuits_of_small_quorum_sets(rt: HostRuntime) {
    let alloc = rt.alloc();
    let (greatest, faulty) = ([false, true, true], [true, false, false]);
    let shown = flat(alloc, 2, &[0, 1, 2], greatest, faulty);
    same(&rt, shown, "AtLeast(1, [Node(1), Node(2)]) true");
    let (greatest, faulty) = ([true, false, true], [false, true, false]);
    let shown = nested(alloc, 2, 2, greatest, faulty);
    let want = "AtLeast(2, [Node(0), AtLeast(1, [Node(2)])]) true";
    same(&rt, shown, want);
}

#[test]
fn circuits_of_odd_quorum_sets(rt: HostRuntime) {
    let alloc = rt.alloc();
    let shown = nested(alloc, 1, 3, [true; 3], [false; 3]);
    same(&rt, shown, "AtLeast(1, [Node(0)]) true");
    let shown = flat(alloc, 2, &[1, 1], [false, true, false], [false; 3]);
    same(&rt, shown, "AtLeast(2, [Node(1), Node(1)]) true");
    let shown = flat(alloc, 2, &[1, 1], [true, false, false], [false; 3]);
    same(&rt, shown, "Never false");
}

/// The number of variables of a gate over three nodes.
fn vars(alloc: Global, threshold: u64) -> Result<u64, AllocError>
    requires some { 1 ≤ threshold }
    requires few { threshold ≤ 3 }
{
    let mut entries = Vec::new(alloc);
    entries.push(Circuit::Node(0))?;
    entries.push(Circuit::Node(1))?;
    entries.push(Circuit::Node(2))?;
    let circuit = Circuit::AtLeast(threshold, entries);
    Ok(circuit.gate_vars())
}

/// Those of the gates with the thresholds 1 to 3.
fn vars_of_each(alloc: Global) -> Result<(u64, u64, u64), AllocError> {
    Ok((vars(alloc, 1)?, vars(alloc, 2)?, vars(alloc, 3)?))
}

#[test]
fn gates_have_their_numbers_of_variables(rt: HostRuntime) {
    assert_eq!(rt; vars_of_each(rt.alloc()), Ok((1, 5, 1)));
}
