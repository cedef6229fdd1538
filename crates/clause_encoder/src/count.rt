//! How many variables a formula has, before anything of it is written.
ghost use Rattle.std.specs.Prelude.{◌≡◌, ◌+◌, ◌*◌, ◌<◌, ◌≤◌, ◌^◌, [], All, IfOk, OnOk, length};
ghost use Rattle.fbas_model.specs.declared.TheConstants.{MOST_NODES, MOST_ENTRIES};
ghost use Rattle.threshold_circuit.specs.Circuits.{HasThresholds, all_inputs};
ghost use Rattle.threshold_circuit.specs.Gates.{gate_variables};
ghost use Rattle.threshold_circuit.specs.Views.{circuit_view};
ghost use Rattle.clause_encoder.specs.CircuitClauses.{circuit_clauses};
ghost use Rattle.clause_encoder.specs.Known.{AreKnown};
ghost use Rattle.clause_encoder.specs.SharedGates.{place_of, gates_in};
ghost use Rattle.clause_encoder.specs.Formula.{side_clauses, side_from, formula_over};
ghost use Rattle.clause_encoder.specs.Written.{circuit_in, circuit_of_kind, AreWritable, variables_of};

use crate::circuits::Circuits;
use crate::known::Known;
use crate::shared_gates::SharedGates;
use crate::version::Version;
use std::alloc::{AllocError, Global};
use threshold_circuit::{Circuit, own_vars};

/// The first variable that is free after the gates of a circuit, where `next` is the first before them: O(its entries), on
/// average, and nothing but a look-up for one of the shared gates.
fn count_circuit(
    alloc: Global,
    shared: &mut SharedGates,
    next: u64,
    circuit: &Circuit,
) -> Result<u64, AllocError>
    requires thresholds { HasThresholds (circuit_view circuit.now) }
    requires few { all_inputs (circuit_view circuit.now) ≤ MOST_ENTRIES }
    requires room { next + gate_variables (circuit_view circuit.now) < 2 ^ 63 }
    ensures after { IfOk result (λ n. place_of n shared.new ≡ (circuit_clauses shared.old.version (λ v. v) (place_of next shared.old) (circuit_view circuit.now)).after) }
    ensures version { shared.new.version ≡ shared.old.version }
{
    match circuit {
        Circuit::Always => Ok(next),
        Circuit::Never => Ok(next),
        Circuit::Node(_) => Ok(next),
        Circuit::AtLeast(threshold, entries) => {
            if shared.find(circuit).is_some() {
                return Ok(next);
            }
            let mut free = next;
            for entry in entries {
                free = count_circuit(alloc, shared, free, entry)?;
            }
            free += own_vars(*threshold, entries.len() as u64);
            shared.keep(alloc, circuit, free - 1)?;
            Ok(free)
        }
    }
}

/// The same of a node of this kind: nothing is looked at where the gate of the kind is known.
fn count_node(
    alloc: Global,
    shared: &mut SharedGates,
    known: &mut Known,
    next: u64,
    kind: usize,
    circuits: &Circuits,
) -> Result<u64, AllocError>
    requires kind { kind < length circuits.now.different }
    requires same_kinds { length known.old ≡ length circuits.now.different }
    requires known { AreKnown (gates_in shared.old) circuits.now known.old }
    requires thresholds { HasThresholds (circuit_of_kind circuits.now kind) }
    requires few { all_inputs (circuit_of_kind circuits.now kind) ≤ MOST_ENTRIES }
    requires room { next + gate_variables (circuit_of_kind circuits.now kind) < 2 ^ 63 }
    ensures after { IfOk result (λ n. place_of n shared.new ≡ (circuit_clauses shared.old.version (λ v. v) (place_of next shared.old) (circuit_of_kind circuits.now kind)).after) }
    ensures version { shared.new.version ≡ shared.old.version }
    ensures same_kinds { length known.new ≡ length known.old }
    ensures known { OnOk result (AreKnown (gates_in shared.new) circuits.now known.new) }
{
    if known.gate(kind).is_some() {
        return Ok(next);
    }
    let circuit = circuits.of_kind(kind);
    let free = count_circuit(alloc, shared, next, circuit)?;
    known.note(kind, shared.gate(circuit));
    Ok(free)
}

/// The same of these nodes in order, after which no gate stands yet.
fn count_nodes(
    alloc: Global,
    shared: &mut SharedGates,
    known: &mut Known,
    next: u64,
    nodes: &[u32],
    circuits: &Circuits,
) -> Result<u64, AllocError>
    requires no_gates { gates_in shared.old ≡ [] }
    requires same_kinds { length known.old ≡ length circuits.now.different }
    requires known { AreKnown (gates_in shared.old) circuits.now known.old }
    requires nodes { All (λ v. v < length circuits.now.kinds) nodes.now }
    requires writable { AreWritable (length circuits.now.kinds) circuits.now.different }
    requires room { next + variables_of (circuit_in circuits.now) nodes.now < 2 ^ 63 }
    ensures { IfOk result (λ n. n ≡ (side_clauses shared.old.version (λ v. v) (circuit_in circuits.now) (side_from next) nodes.now).after.next) }
{
    let mut free = next;
    for node in nodes {
        let kind = circuits.kind(*node);
        free = count_node(alloc, shared, known, free, kind, circuits)?;
    }
    Ok(free)
}

/// The same of a side whose gates begin at `next`: linear in the nodes and in the entries of the different circuits, on
/// average.
fn count_side(
    alloc: Global,
    version: Version,
    next: u64,
    nodes: &[u32],
    circuits: &Circuits,
) -> Result<u64, AllocError>
    requires nodes { All (λ v. v < length circuits.now.kinds) nodes.now }
    requires writable { AreWritable (length circuits.now.kinds) circuits.now.different }
    requires room { next + variables_of (circuit_in circuits.now) nodes.now < 2 ^ 63 }
    ensures { IfOk result (λ n. n ≡ (side_clauses version (λ v. v) (circuit_in circuits.now) (side_from next) nodes.now).after.next) }
{
    let mut shared = SharedGates::new(alloc, version);
    let mut known = Known::new(alloc, circuits.len())?;
    count_nodes(alloc, &mut shared, &mut known, next, nodes, circuits)
}

/// How many variables the formula over these members has: linear in the members and in the entries of their different
/// circuits, on average.
pub fn count_vars(
    alloc: Global,
    version: Version,
    nodes: &[u32],
    circuits: &Circuits,
) -> Result<u64, AllocError>
    requires few { length nodes.now ≤ MOST_NODES }
    requires nodes { All (λ v. v < length circuits.now.kinds) nodes.now }
    requires writable { AreWritable (length circuits.now.kinds) circuits.now.different }
    ensures vars { IfOk result (λ vars. vars + 1 ≡ (formula_over version (λ v. v) (λ v. v) (1 + length nodes.now + length nodes.now) (circuit_in circuits.now) nodes.now).after.next) }
    ensures members { IfOk result (λ vars. 2 * length nodes.now ≤ vars) }
{
    let members = nodes.len() as u64;
    let middle = count_side(alloc, version, 1 + members + members, nodes, circuits)?;
    let next = count_side(alloc, version, middle, nodes, circuits)?;
    Ok(next - 1)
}
