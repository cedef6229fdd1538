//! The circuits of the nodes. Many nodes of a network have equal quorum sets: each different circuit is kept once.
ghost use Rattle.std.specs.Prelude.{◌≡◌, ℕ, ◌<◌, [], All, length, slice_index_or, IfOk, OnOk};
ghost use Rattle.fbas_model.specs.Nodes.{members, ◌∈◌};
ghost use Rattle.threshold_circuit.specs.Views.{circuit_view};
ghost use Rattle.clause_encoder.specs.Formula.{circuit_at};
ghost use Rattle.clause_encoder.specs.Written.{circuit_in, circuit_of_kind, AreWritable};

use crate::nodes::node_circuit;
use crate::version::Version;
use fbas_core::System;
use indexmap::IndexSet;
use name_set::NodeSet;
use std::alloc::{AllocError, Global};
use std::marker::Model;
use threshold_circuit::Circuit;

/// The different circuits, in the order in which nodes have them first, and for each node the place of its own among them.
/// This place is the node's kind.
#[derive(Drop)]
pub struct Circuits {
    different: IndexSet<Circuit>,
    kinds: Vec<u32>,
}

impl Model for Circuits {
    ghost use Rattle.clause_encoder.specs.Written.{CircuitTable};

    ghost Value = { CircuitTable };

    ghost use Rattle.threshold_circuit.specs.contracts.Circuit as e;
    ghost use Rattle.std.specs.Coded.{codes};

    ghost coded = { Prim.hlevel (codes, e.the_row.coded) };

    ghost use Rattle.clause_encoder.specs.CircuitTables.{shown, IsTable};

    ghost view = { shown };

    ghost invariant = { IsTable };
}

impl Circuits {
    /// For each node its circuit, where it is a member: linear in n and in the entries of the members' quorum sets, on average
    /// over the hashes of circuits. An equal circuit is dropped as soon as it is found.
    pub fn of(
        alloc: Global,
        version: Version,
        system: &System,
        faulty: &NodeSet,
        greatest: &NodeSet,
    ) -> Result<Circuits, AllocError>
        requires faulty { length faulty.now ≡ length system.now.sets }
        requires greatest { length greatest.now ≡ length system.now.sets }
        ensures n { IfOk result (λ c. length c.kinds ≡ length system.now.sets) }
        ensures circuits { IfOk result (λ c. (v : ℕ) → v ∈ members greatest.now → circuit_in c v ≡ circuit_at version system.now.sets faulty.now greatest.now v) }
        ensures writable { IfOk result (λ c. AreWritable (length system.now.sets) c.different) }
    {
        let mut different = IndexSet::new(alloc);
        let mut kinds = Vec::new(alloc);
        add_nodes(
            alloc,
            version,
            system,
            faulty,
            greatest,
            &mut different,
            &mut kinds,
        )?;
        Ok(Circuits { different, kinds })
    }

    /// How many kinds there are.
    pub fn len(&self) -> usize
        ensures { result ≡ length self.now.different }
    {
        self.different.len()
    }

    /// The kind of a node.
    pub fn kind(&self, node: u32) -> usize
        requires { node < length self.now.kinds }
        ensures kind { result ≡ slice_index_or self.now.kinds node 0 }
        ensures below { result < length self.now.different }
    {
        self.kinds[node as usize] as usize
    }

    /// The circuit of a kind.
    pub fn of_kind(&self, kind: usize) -> &Circuit
        requires { kind < length self.now.different }
        ensures { circuit_view result.now ≡ circuit_of_kind self.now kind }
    {
        &self.different.as_slice()[kind]
    }
}

/// Adds each node's kind, and the circuits that no node before has.
fn add_nodes(
    alloc: Global,
    version: Version,
    system: &System,
    faulty: &NodeSet,
    greatest: &NodeSet,
    different: &mut IndexSet<Circuit>,
    kinds: &mut Vec<u32>,
) -> Result<(), AllocError>
    requires faulty { length faulty.now ≡ length system.now.sets }
    requires greatest { length greatest.now ≡ length system.now.sets }
    requires no_circuit { different.old.keys ≡ [] }
    requires no_kind { kinds.old.items ≡ [] }
    ensures n { OnOk result (length kinds.new.items ≡ length system.now.sets) }
    ensures below { OnOk result (All (λ k. k < length different.new.keys) kinds.new.items) }
    ensures circuits { OnOk result ((v : ℕ) → v ∈ members greatest.now → circuit_in (record { different = different.new.keys; kinds = kinds.new.items }) v ≡ circuit_at version system.now.sets faulty.now greatest.now v) }
    ensures writable { OnOk result (AreWritable (length system.now.sets) different.new.keys) }
{
    for v in 0..system.len() {
        let circuit = node_circuit(alloc, version, system, faulty, greatest, v)?;
        let (kind, _) = different.insert_full(circuit)?;
        kinds.push(kind as u32)?;
    }
    Ok(())
}
