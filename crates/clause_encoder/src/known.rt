//! Gates that are found without a look-up.
ghost use Rattle.std.specs.Prelude.{◌≡◌, ◌<◌, List, None, IfOk, length, slice_index_or, slice_set};
ghost use Rattle.clause_encoder.specs.CircuitClauses.{Gate};
ghost use Rattle.clause_encoder.specs.Known.{AreKnown};
ghost use Rattle.clause_encoder.specs.Written.{CircuitTable};

use std::alloc::{AllocError, Global};
use std::marker::Model;

/// For each kind of circuit the variable of its gate on a side, once that gate is one of the shared ones.
#[derive(Drop)]
pub struct Known {
    gates: Vec<Option<u64>>,
}

impl Model for Known {
    ghost use Rattle.std.specs.Prelude.{ℕ, List, Option};

    ghost Value = { List (Option ℕ) };

    ghost view = { λ k. k.gates.items };
}

impl Known {
    /// Of this many kinds none.
    pub fn new(alloc: Global, kinds: usize) -> Result<Known, AllocError>
        ensures kinds { IfOk result (λ k. length k ≡ kinds) }
        ensures none { (gates : List Gate) (circuits : CircuitTable) → IfOk result (AreKnown gates circuits) }
    {
        Ok(Known {
            gates: vec![in alloc; None; kinds]?,
        })
    }

    /// The variable of a kind's gate, where it is known.
    pub fn gate(&self, kind: usize) -> Option<u64>
        requires { kind < length self.now }
        ensures { result ≡ slice_index_or self.now kind None }
    {
        self.gates[kind]
    }

    /// Notes what is known of a kind now.
    pub fn note(&mut self, kind: usize, gate: Option<u64>)
        requires { kind < length self.old }
        ensures { self.new ≡ slice_set self.old kind gate }
    {
        self.gates[kind] = gate;
    }
}
