//! How often a desk has failed.
ghost use Rattle.std.specs.Prelude.{◌≡◌, ◌≤◌, ◌+◌, ◌-◌, ◌^◌, min};

use crate::desk::{ReadFailed, WriteFailed};
use std::marker::Model;

/// The counts of calls that failed. One that stands at 2^64 - 1 stays there.
#[derive(Drop)]
pub struct FaultCounts {
    reads: u64,
    writes: u64,
}

impl Model for FaultCounts {
    ghost use Rattle.desk_io.specs.Faults.{Faults};

    ghost Value = { Faults };

    ghost view = { λ c. record { reads = c.reads; writes = c.writes } };
}

impl FaultCounts {
    /// No failures.
    pub fn new() -> FaultCounts
        ensures { result ≡ record { reads = 0; writes = 0 } }
    {
        FaultCounts {
            reads: 0,
            writes: 0,
        }
    }

    /// Counts a call that reads.
    pub fn read_failed(&mut self) -> ReadFailed
        ensures counted { self.new ≡ record self.old { reads = min (self.old.reads + 1) (2 ^ 64 - 1) } }
        ensures later { self.old.reads ≤ self.new.reads }
    {
        self.reads = self.reads.saturating_add(1);
        ReadFailed
    }

    /// Counts a call that writes.
    pub fn write_failed(&mut self) -> WriteFailed
        ensures counted { self.new ≡ record self.old { writes = min (self.old.writes + 1) (2 ^ 64 - 1) } }
        ensures later { self.old.writes ≤ self.new.writes }
    {
        self.writes = self.writes.saturating_add(1);
        WriteFailed
    }
}
