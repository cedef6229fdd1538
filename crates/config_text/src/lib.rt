//! Configurations as text: every name of a system as a node with its quorum set.
#![tactic(auto)]

ghost use Rattle.std.specs.Prelude.{◌≡◌, ℕ, List, Ok, Some, IfOk, string_bytes};
ghost use Rattle.std.specs.List.Sorted.{IsStrictlySortedBy};
ghost use Rattle.fbas_model.specs.Names.{name_cmp};
ghost use Rattle.fbas_model.specs.Systems.{System as Whole, IsSystem};
ghost use Rattle.node_json.specs.Configuration.{system_of};
ghost use Rattle.node_json.specs.Reading.{tree_of};
ghost use Rattle.config_text.specs.Written.{AreListed, config_data, config_text, nodes_named};

mod tree;

use crate::tree::config_tree;
use fbas_core::System;
use std::alloc::{AllocError, Global};

/// The text of the configuration in which every name of the system is a node, in order, as `serde_json` prints it without
/// spaces. A node without a quorum set has no member of that name. Linear in the nodes and the entries; the tree and its text
/// are in memory together.
pub fn write_config(alloc: Global, system: &System) -> Result<String, AllocError>
    ensures text { IfOk result (λ text. string_bytes text ≡ config_text system.now) }
    ensures tree { IfOk result (λ text. tree_of (string_bytes text) ≡ Some (config_data (nodes_named system.now))) }
    ensures reads_back { IfOk result (λ text. system_of (string_bytes text) ≡ Ok system.now) }
{
    config_tree(alloc, system)?.to_string(alloc)
}

/// Bytes that have the tree of a system's configuration say that system.
pub fn what_is_written_of_a_system_reads_back()
    ensures { (s : Whole) (bytes : List ℕ) → IsSystem s.names s.sets → IsStrictlySortedBy name_cmp s.names → AreListed s.sets → tree_of bytes ≡ Some (config_data (nodes_named s)) → system_of bytes ≡ Ok s }
{}
