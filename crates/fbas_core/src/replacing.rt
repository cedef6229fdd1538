//! A system in which one node gets another quorum set.

ghost use Rattle.std.specs.Prelude.{◌≡◌, ◌<◌, ◌≤◌, length, IfSome, OnOk, OnErr, slice_set};
ghost use Rattle.fbas_model.specs.Systems.{IsWithin, entries_in};
ghost use Rattle.fbas_core.specs.Replacing.{with_set};

use crate::System;
use crate::mentions::{exchange, mentioned_in};
use fbas_model::MOST_ENTRIES;
use quorum_set::QuorumSet;
use std::alloc::AllocError;

impl System {
    /// Gives the node this quorum set in place of its own, or none. Where memory runs out the system is as it was.
    ///
    /// Linear in the entries of both quorum sets and in the lists of those who mention the nodes that one of them mentions.
    pub fn replace(&mut self, v: u32, set: Option<QuorumSet>) -> Result<(), AllocError>
        requires node { v < length self.old.sets }
        requires within { IfSome set (IsWithin (length self.old.names)) }
        requires few { entries_in (slice_set self.old.sets v set) ≤ MOST_ENTRIES }
        ensures replaced { OnOk result (self.new ≡ with_set self.old v set) }
        ensures unchanged { OnErr result (self.new ≡ self.old) }
    {
        let n = self.names.len();
        let before = mentioned_in(n, &self.sets[v as usize]);
        let after = mentioned_in(n, &set);
        exchange(v, &before, &after, &mut self.mentioning)?;
        self.sets[v as usize] = set;
        Ok(())
    }
}
