//! Clauses as they are written.
ghost use Rattle.std.specs.Prelude.{◌≡◌, ◌≤◌, [], ◌∷◌, ◌++◌, OnOk};
ghost use Rattle.lrat_model.specs.Runs.{formula_database};
ghost use Rattle.clause_encoder.specs.declared.limits.TheConstants.{MOST_CLAUSES};

use crate::limits::MOST_CLAUSES;
use clause_store::{Lit, Store};
use std::alloc::{AllocError, Global};
use std::marker::Model;

/// A store of at most `MOST_CLAUSES` clauses under the ids from 1 on in order, seen as the list of its clauses.
#[derive(Drop)]
pub struct Clauses {
    store: Store,
}

impl Model for Clauses {
    ghost use Rattle.std.specs.Prelude.{List};
    ghost use Rattle.lrat_model.specs.Literal.{Literal};

    ghost Value = { List (List Literal) };

    ghost use Rattle.clause_encoder.specs.InOrder.{shown, IsInOrder};

    ghost view = { shown };

    ghost invariant = { IsInOrder };
}

impl Clauses {
    /// No clause. Takes no memory.
    pub fn new(alloc: Global) -> Clauses
        ensures { result ≡ [] }
    {
        Clauses {
            store: Store::new(alloc),
        }
    }

    /// One more clause after the others: O(literals), amortised. Above `MOST_CLAUSES` there is no memory for it either.
    pub fn push(&mut self, lits: &[Lit]) -> Result<(), AllocError>
        ensures { OnOk result (self.new ≡ self.old ++ lits.now ∷ []) }
    {
        let last = self.store.last();
        if last >= MOST_CLAUSES {
            return Err(AllocError);
        }
        self.store.push(last + 1, lits)?;
        Ok(())
    }

    /// The store.
    pub fn into_store(self) -> Store
        ensures clauses { result ≡ formula_database self }
        ensures few { result.last ≤ MOST_CLAUSES }
    {
        self.store
    }
}
