//! The RAT hints of an addition whose hints come one after another: each id once, in room that is there before the first.
ghost use Rattle.std.specs.Prelude.{◌≡◌, ◌<◌, ◌≤◌, ◌++◌, [], ◌∷◌, length, false, Some, OnOk, if◌then◌else◌};
ghost use Rattle.lrat_model.specs.Clauses.{has_id};
ghost use Rattle.rat_candidates.specs.Groups.{group_id, ids_in};

use crate::hints::has_group;
use std::alloc::{AllocError, Global};
use std::marker::Model;

/// RAT hints that name each id once.
#[derive(Drop)]
pub struct KeptHints {
    hints: Vec<i64>,
    // No id that they name is higher.
    highest: u64,
}

impl Model for KeptHints {
    ghost use Rattle.std.specs.Prelude.{vec_capacity};
    ghost use Rattle.rat_candidates.specs.Kept.{Kept, IsHighest};

    ghost Value = { Kept };

    ghost view = { λ k. record { hints = k.hints.items; room = vec_capacity k.hints } };

    ghost invariant = { λ k. IsHighest k.hints.items k.highest };
}

impl KeptHints {
    /// No hint. Takes no memory.
    pub fn new(alloc: Global) -> KeptHints
        ensures { result.hints ≡ [] }
    {
        KeptHints {
            hints: Vec::new(alloc),
            highest: 0,
        }
    }

    /// The hints.
    pub fn hints(&self) -> &[i64]
        ensures { result.now ≡ self.now.hints }
    {
        self.hints.as_slice()
    }

    /// No hint, and room for this many.
    pub fn restart(&mut self, room: usize) -> Result<(), AllocError>
        ensures hints { self.new.hints ≡ [] }
        ensures room { OnOk result (room ≤ self.new.room) }
    {
        self.hints.clear();
        self.highest = 0;
        self.hints.reserve(room)
    }

    /// Whether a hint names this id. O(1) where it is higher than all that were named, else O(hints).
    fn is_named(&self, id: u64) -> bool
        ensures { result ≡ has_id (ids_in self.now.hints) id }
    {
        id <= self.highest && has_group(self.hints.as_slice(), id)
    }

    /// Keeps a hint, which names this id, unless one did before. Takes no memory. O(1) where ids rise, else O(hints).
    pub fn keep(&mut self, hint: i64, id: u64)
        requires names { Some id ≡ group_id hint }
        requires room { has_id (ids_in self.old.hints) id ≡ false → length self.old.hints < self.old.room }
        ensures kept { self.new.hints ≡ (if has_id (ids_in self.old.hints) id then self.old.hints else self.old.hints ++ hint ∷ []) }
        ensures room { self.old.room ≤ self.new.room }
    {
        if self.is_named(id) {
            return;
        }
        self.highest = self.highest.max(id);
        let _ = self.hints.push(hint);
    }
}
