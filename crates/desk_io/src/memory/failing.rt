//! The calls that are to fail.
ghost use Rattle.std.specs.Prelude.{◌≡◌, ◌↔◌, ◌==◌, IsTrue, length, false};
ghost use Rattle.desk_io.specs.Failing.{counted_at, counted, IsDue};

use crate::desk::{To, Which};
use std::marker::Model;

/// A kind of call of a desk.
#[derive(Clone, Copy, Debug, PartialEq, Eq)]
pub enum Call {
    /// A `begin` of that file.
    Begin(Which),
    /// A `next` of that file.
    Next(Which),
    /// A `create`.
    Create,
    /// A `put` there.
    Put(To),
}

/// Calls that are to fail: each by its kind, and which of the coming calls of the kind it is, from 1. Those that have
/// come stand at 0.
#[derive(Drop)]
pub struct Failing {
    calls: Vec<(Call, u64)>,
}

impl Model for Failing {
    ghost use Rattle.std.specs.Prelude.{ℕ, List};
    ghost use Rattle.desk_io.specs.declared.memory.failing.Call.{Call};

    ghost Value = { List (Call × ℕ) };

    ghost view = { λ f. f.calls.items };
}

/// Counts the call at one of the listed.
fn count_at(listed: &mut (Call, u64), call: Call)
    ensures { listed.new ≡ counted_at call listed.old }
{
    if listed.0 == call {
        listed.1 = listed.1.saturating_sub(1);
    }
}

/// Counts the call at each of the listed.
fn count_all(calls: &mut [(Call, u64)], call: Call)
    ensures { calls.new ≡ counted call calls.old }
{
    for listed in calls.iter_mut() {
        count_at(listed, call);
    }
}

/// Whether the call is listed as the next of its kind.
fn is_due(calls: &[(Call, u64)], call: Call) -> bool
    ensures { IsTrue result ↔ IsDue call calls.now }
{
    calls.contains(&(call, 1))
}

impl Failing {
    /// These calls, of which none has come.
    pub fn new(calls: Vec<(Call, u64)>) -> Failing
        ensures { result ≡ calls.items }
    {
        Failing { calls }
    }

    /// Counts the call, and says whether it is to fail.
    pub fn count(&mut self, call: Call) -> bool
        ensures counted { self.new ≡ counted call self.old }
        ensures due { IsTrue result ↔ IsDue call self.old }
        ensures listed { IsTrue result → (length self.old == 0) ≡ false }
        ensures plain { (length self.new == 0) ≡ (length self.old == 0) }
    {
        let due = is_due(&self.calls, call);
        count_all(&mut self.calls, call);
        due
    }
}
