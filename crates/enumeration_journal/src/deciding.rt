//! Whether a set blocks, and whether it does so with no node to spare.
ghost use Rattle.std.specs.Prelude.{◌≡◌, true, length};
ghost use Rattle.fbas_model.specs.Nodes.{members, ◌⊆◌};
ghost use Rattle.fbas_model.specs.Fbas.{Blocks};
ghost use Rattle.enumeration_journal.specs.Kinds.{Is, IsMinimal};
ghost use Rattle.enumeration_journal.specs.Tests.{is_blocking, is_minimal};

use crate::kinds::Listed;
use fbas_core::System;
use greatest_quorum::{blocks, minimal_block, minimal_quorum};
use name_set::NodeSet;

/// Whether the set has no faulty node, and meets every quorum once these are deleted. `scratch` holds nothing of use
/// afterwards. The cost is that of `shrink`.
pub fn is_blocking(system: &System, faulty: &NodeSet, set: &NodeSet, scratch: &mut NodeSet) -> bool
    requires same_n { length set.now ≡ length system.now.sets }
    requires same_faulty { length faulty.now ≡ length system.now.sets }
    requires same_scratch { length scratch.old ≡ length system.now.sets }
    ensures same_scratch { length scratch.new ≡ length scratch.old }
    ensures blocks { result ≡ is_blocking system.now.sets faulty.now set.now }
    ensures is { result ≡ true → Blocks system.now.sets (members faulty.now) (members set.now) }
{
    if set.meets(faulty) {
        return false;
    }
    blocks(system, set, faulty, scratch)
}

/// Whether no proper subset of the set, which is of the kind, is of it: nothing can be taken out. `copy` and `scratch` hold
/// nothing of use afterwards. The cost is that of `shrink` for each node of the set.
pub fn is_minimal(
    system: &System,
    faulty: &NodeSet,
    kind: Listed,
    set: &NodeSet,
    copy: &mut NodeSet,
    scratch: &mut NodeSet,
) -> bool
    requires same_n { length set.now ≡ length system.now.sets }
    requires same_faulty { length faulty.now ≡ length system.now.sets }
    requires same_copy { length copy.old ≡ length system.now.sets }
    requires same_scratch { length scratch.old ≡ length system.now.sets }
    requires is { Is kind system.now.sets (members faulty.now) (members set.now) }
    ensures same_copy { length copy.new ≡ length copy.old }
    ensures same_scratch { length scratch.new ≡ length scratch.old }
    ensures minimal { result ≡ is_minimal kind system.now.sets faulty.now set.now }
{
    copy.copy_from(set);
    make_minimal(system, faulty, kind, copy, scratch);
    copy.same(set)
}

/// Takes nodes out of a set of the kind until none can be taken out. `scratch` holds nothing of use afterwards. The cost is that
/// of `shrink` for each node of the set.
pub fn make_minimal(
    system: &System,
    faulty: &NodeSet,
    kind: Listed,
    set: &mut NodeSet,
    scratch: &mut NodeSet,
)
    requires same_n { length set.old ≡ length system.now.sets }
    requires same_faulty { length faulty.now ≡ length system.now.sets }
    requires same_scratch { length scratch.old ≡ length system.now.sets }
    requires is { Is kind system.now.sets (members faulty.now) (members set.old) }
    ensures same_n { length set.new ≡ length set.old }
    ensures same_scratch { length scratch.new ≡ length scratch.old }
    ensures within { members set.new ⊆ members set.old }
    ensures minimal { IsMinimal kind system.now.sets (members faulty.now) (members set.new) }
{
    match kind {
        Listed::Quorum => minimal_quorum(system, set, faulty, scratch),
        Listed::Blocking => minimal_block(system, set, faulty, scratch),
        // There is no such set.
        Listed::Smaller => {}
    }
}
