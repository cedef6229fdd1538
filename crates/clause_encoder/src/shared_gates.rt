//! The gates of a side that are used again.
ghost use Rattle.std.specs.Prelude.{◌≡◌, None, IfSome, OnOk, [], ◌∷◌, ◌++◌};
ghost use Rattle.threshold_circuit.specs.Views.{circuit_view};
ghost use Rattle.clause_encoder.specs.CircuitClauses.{variable_among, one_gate_more};
ghost use Rattle.clause_encoder.specs.Known.{HasGate};
ghost use Rattle.clause_encoder.specs.SharedGates.{gates_in};

use crate::version::Version;
use indexmap::IndexMap;
use std::alloc::{AllocError, Global};
use threshold_circuit::Circuit;

/// The gates that are written and may be used again, each with its variable, in the order in which they were written.
#[derive(Drop)]
pub struct SharedGates {
    version: Version,
    gates: IndexMap<Circuit, u64>,
}

impl SharedGates {
    /// No gate. Takes no memory.
    pub fn new(alloc: Global, version: Version) -> SharedGates
        ensures version { result.version ≡ version }
        ensures gates { gates_in result ≡ [] }
    {
        SharedGates {
            version,
            gates: IndexMap::new(alloc),
        }
    }

    /// The variable of an equal circuit, where there is one: O(e) for e entries at all depths, on average.
    pub fn find(&self, circuit: &Circuit) -> Option<u64>
        ensures { result ≡ variable_among (gates_in self.now) (circuit_view circuit.now) }
    {
        self.gates.get(circuit).copied()
    }

    /// The same of a circuit that is a gate.
    pub fn gate(&self, circuit: &Circuit) -> Option<u64>
        ensures { IfSome result (HasGate (gates_in self.now) (circuit_view circuit.now)) }
    {
        match circuit {
            Circuit::AtLeast(_, _) => self.find(circuit),
            Circuit::Always | Circuit::Never | Circuit::Node(_) => None,
        }
    }

    /// Keeps a gate, where the version uses it again: O(e), on average.
    pub fn keep(
        &mut self,
        alloc: Global,
        circuit: &Circuit,
        variable: u64,
    ) -> Result<(), AllocError>
        requires { variable_among (gates_in self.old) (circuit_view circuit.now) ≡ None }
        ensures gates { OnOk result (gates_in self.new ≡ one_gate_more self.old.version (gates_in self.old) (circuit_view circuit.now) variable) }
        ensures version { self.new.version ≡ self.old.version }
    {
        match self.version {
            Version::One => Ok(()),
            Version::Two => self.add(alloc, circuit, variable),
            Version::Three => self.add(alloc, circuit, variable),
        }
    }

    /// Keeps a gate.
    fn add(&mut self, alloc: Global, circuit: &Circuit, variable: u64) -> Result<(), AllocError>
        requires { variable_among (gates_in self.old) (circuit_view circuit.now) ≡ None }
        ensures gates { OnOk result (gates_in self.new ≡ gates_in self.old ++ record { circuit = circuit_view circuit.now; variable = variable } ∷ []) }
        ensures version { self.new.version ≡ self.old.version }
    {
        let key = circuit.copy(alloc)?;
        self.gates.insert(key, variable)?;
        Ok(())
    }
}
