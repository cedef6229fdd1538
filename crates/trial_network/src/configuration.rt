//! The trial configuration: its text, and the system that the text says.
ghost use Rattle.std.specs.Prelude.{◌≡◌, ◌≤◌, Ok, Some, IfOk, string_bytes};
ghost use Rattle.fbas_model.specs.Nodes.{∅};
ghost use Rattle.fbas_model.specs.Fbas.{Intersects};
ghost use Rattle.node_json.specs.Configuration.{system_of};
ghost use Rattle.node_json.specs.Reading.{tree_of};
ghost use Rattle.trial_network.specs.Trial.{trial_system};
ghost use Rattle.trial_network.specs.Tree.{trial_tree, trial_text};

use crate::network::network;
use config_text::write_config;
use fbas_core::System;
use std::alloc::{AllocError, Global};

/// The most organisations of a trial configuration: the names of their nodes have three digits.
pub const MOST_ORGANISATIONS: u32 = 100;

/// A trial configuration: its text, and the system that the text says.
#[derive(Drop)]
pub struct Trial {
    pub text: String,
    pub system: System,
}

impl Trial {
    /// The trial configuration of this many organisations: 12 times the square of their number entries.
    ///
    /// Each organisation has three nodes, two of which speak for it, and every node wants more than two thirds of the
    /// organisations.
    pub fn of(alloc: Global, organisations: u32) -> Result<Trial, AllocError>
        requires some { 1 ≤ organisations }
        requires few { organisations ≤ MOST_ORGANISATIONS }
        ensures text { IfOk result (λ t. string_bytes t.text ≡ trial_text organisations) }

        // The text reads back as its tree, and its system is the wanted one.
        ensures tree { IfOk result (λ _. tree_of (trial_text organisations) ≡ Some (trial_tree organisations)) }
        ensures read { IfOk result (λ t. system_of (trial_text organisations) ≡ Ok t.system) }
        ensures system { IfOk result (λ t. t.system ≡ trial_system organisations) }

        // Every two quorums share a node.
        ensures intersects { IfOk result (λ t. Intersects t.system.sets ∅) }
    {
        let system = network(alloc, organisations)?;
        let text = write_config(alloc, &system)?;
        Ok(Trial { text, system })
    }
}
