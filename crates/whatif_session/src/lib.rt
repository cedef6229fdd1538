//! A system that is edited, and what is so of it after each edit.
#![tactic(auto)]

ghost use Rattle.std.specs.Prelude.{◌≡◌, ◌+◌, ℕ, List, All, Ok, length};
ghost use Rattle.fbas_model.specs.Systems.{System, IsSystem};
ghost use Rattle.fbas_model.specs.Names.{Name};
ghost use Rattle.fbas_model.specs.Nodes.{Table};
ghost use Rattle.fbas_model.specs.Restriction.{restricted};
ghost use Rattle.name_set.specs.Lists.{names_read};
ghost use Rattle.whatif_session.specs.Names.{with_name, place_for, all_but};
ghost use Rattle.whatif_session.specs.Edits.{Edit};
ghost use Rattle.whatif_session.specs.Edited.{edited};
ghost use Rattle.whatif_session.specs.Touched.{Touches};
ghost use Rattle.whatif_session.specs.Scripts.{states_from, states_of};
ghost use Rattle.whatif_session.specs.Sessions.{set_in};

mod change;
mod faults;
mod lines;
mod lookups;
mod naming;
mod numbers;
mod parts;
mod script;
mod session;
mod unmet;

pub use faults::{EditFault, ScriptFault};
pub use numbers::{MOST_PLACE, MOST_THRESHOLD};
pub use script::script_lines;
pub use session::Session;

/// A script without a fault has a system before any edit, and one after each line.
pub fn a_script_has_a_system_after_each_line()
    ensures { (l : ℕ) (s : System) (lines : List (List ℕ)) (states : List System) → states_from l s lines ≡ Ok states → length states ≡ length lines + 1 }
{}

/// A system with one name more is the same without it.
pub fn a_new_name_leaves_the_others_as_they_are()
    ensures { (s : System) (name : Name) → IsSystem s.names s.sets → restricted (all_but (place_for name s.names) (length s.names)) (with_name s name) ≡ s }
{}

/// An edit that is made was one that may be made. It brings at most one name and touches one node's quorum set: in it the set that
/// its path leads to, in the one thing that it says. All else is as it was.
pub fn an_edit_touches_one_quorum_set()
    ensures { (s : System) (edit : Edit) (t : System) → IsSystem s.names s.sets → edited s edit ≡ Ok t → Touches s edit t }
{}

/// A list of names of a system is one of each system that a script makes of it, and stands for the nodes of these names.
pub fn names_stay_through_a_script()
    ensures { (s : System) (text script : List ℕ) (set : Table) (states : List System) → names_read text s.names ≡ Ok set → states_of s script ≡ Ok states
        → All (λ t. names_read text t.names ≡ Ok (set_in text t)) states }
{}
