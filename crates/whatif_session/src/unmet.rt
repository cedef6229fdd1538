//! The nodes that are unmet despite a set, from one change of a system to the next.

ghost use Rattle.std.specs.Prelude.{◌≡◌, ◌<◌, length};
ghost use Rattle.fbas_model.specs.Fbas.{Fbas};
ghost use Rattle.greatest_quorum.specs.Changes.{IsChangedAt};
ghost use Rattle.greatest_quorum.specs.Unmet.{unmet_of};

use fbas_core::System;
use greatest_quorum::available;
use name_set::NodeSet;

/// Makes of a set and the nodes that are unmet despite it another set and those that are despite that one.
/// Linear in the entries; O(n / 64) if the two are the same.
pub(crate) fn ask(system: &System, set: &NodeSet, asked: &mut NodeSet, known: &mut NodeSet)
    requires same_n { length set.now ≡ length system.now.sets }
    requires same_asked { length asked.old ≡ length system.now.sets }
    requires known { known.old ≡ unmet_of system.now.sets asked.old }
    ensures asked { asked.new ≡ set.now }
    ensures known { known.new ≡ unmet_of system.now.sets set.now }
{
    if asked.same(set) {
        return;
    }
    available(system, set, known);
    asked.copy_from(set);
}

/// Makes of the nodes that were unmet despite a set those that are in this system, in which the quorum set of the node v is
/// another, and all others are the same: one look at the node.
pub(crate) fn follow_unmet(system: &System, v: u32, set: &NodeSet, known: &mut NodeSet)
    requires node { v < length system.now.sets }
    requires same_n { length set.now ≡ length system.now.sets }
    requires same_known { length known.old ≡ length system.now.sets }
    ensures follows { (f : Fbas) → IsChangedAt f system.now.sets v → known.old ≡ unmet_of f set.now → known.new ≡ unmet_of system.now.sets set.now }
{
    known.take(v);
    if !set.has(v) && !system.slice_outside(v, set) {
        known.put(v);
    }
}
