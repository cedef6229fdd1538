//! A system that is edited, with its greatest quorum.

ghost use Rattle.std.specs.Prelude.{◌≡◌, ◌⊎◌, ◌<◌, ◌≤◌, ◌↔◌, Ok, Err, IsTrue, Contains, length, IfOk, IfErr, IfSome, OnOk, OnErr, slice_set, string_bytes};
ghost use Rattle.fbas_model.specs.Nodes.{members};
ghost use Rattle.fbas_model.specs.Fbas.{Available, AreUnmet};
ghost use Rattle.fbas_model.specs.Names.{is_key};
ghost use Rattle.fbas_model.specs.Systems.{IsWithin, entries_in};
ghost use Rattle.fbas_core.specs.Replacing.{with_set};
ghost use Rattle.greatest_quorum.specs.Unmet.{is_available, unmet_of};
ghost use Rattle.node_json.specs.Configuration.{system_of};
ghost use Rattle.config_text.specs.Written.{config_text};
ghost use Rattle.whatif_session.specs.Edited.{edited, appended, declared};
ghost use Rattle.whatif_session.specs.Names.{with_node};
ghost use Rattle.whatif_session.specs.Edits.{Threshold, Add, Drop, Declare, Retire};
ghost use Rattle.whatif_session.specs.EditView.{edit_view, HasKeys};
ghost use Rattle.whatif_session.specs.Scripts.{after_line};
ghost use Rattle.whatif_session.specs.Sessions.{asked, greatest_in, set_in, started};

use crate::change::{Change, changed_at, set_at};
use crate::faults::EditFault;
use crate::lines::{Edit, read_edit};
use crate::lookups::{appended_set, bare_set, entries_after, own_set, validator};
use crate::naming::{grown, marked, moved_members, place_for};
use crate::unmet::{ask, follow_unmet};
use config_text::write_config;
use fbas_core::System;
use fbas_model::MOST_ENTRIES;
use greatest_quorum::{follow, greatest};
use name_set::NodeSet;
use quorum_set::QuorumSet;
use std::alloc::{AllocError, Global};
use std::marker::Model;

/// A system that is edited, the nodes of its greatest quorum, and those that were unmet when availability was asked for last.
///
/// All sets have the numbers of the present system, which a new name moves. What is known of the system is followed from edit to
/// edit, so that none of it is found anew for what an edit leaves as it is.
#[derive(Drop)]
pub struct Session {
    system: System,
    /// How many entries its quorum sets have.
    entries: u64,
    greatest: NodeSet,
    unmet: NodeSet,
    /// A set, mostly the one that availability was asked for last, and the nodes that are unmet despite it.
    asked: NodeSet,
    known: NodeSet,
}

impl Model for Session {
    ghost use Rattle.std.specs.Prelude.{◌≡◌, length};
    ghost use Rattle.fbas_model.specs.Systems.{entries_in};
    ghost use Rattle.greatest_quorum.specs.Unmet.{unmet_of};
    ghost use Rattle.whatif_session.specs.Sessions.{Session as State, coded_session, greatest_in};

    ghost Value = { State };

    ghost coded = { coded_session };

    ghost view = { λ s. record { system = s.system; unmet = s.unmet } };

    ghost invariant = { λ s. (s.greatest ≡ greatest_in s.system) × (length s.unmet ≡ length s.system.sets)
        × (s.entries ≡ entries_in s.system.sets) × (length s.asked ≡ length s.system.sets) × (s.known ≡ unmet_of s.system.sets s.asked) };
}

impl Session {
    /// A session over the system, before any edit. The cost is that of the greatest quorum. Takes no memory.
    pub fn start(system: System) -> Session
        ensures { result ≡ started system }
    {
        let none = NodeSet::new(system.len());
        let greatest = greatest(&system, &none);
        let entries = system.entries();
        // Despite all nodes none is unmet.
        let mut all = NodeSet::new(system.len());
        all.fill();
        Session {
            system,
            entries,
            greatest,
            known: none.copy(),
            unmet: none,
            asked: all,
        }
    }

    /// The system after the edits so far.
    pub fn system(&self) -> &System
        ensures { result.now ≡ self.now.system }
    {
        &self.system
    }

    /// The greatest quorum, or no node where there is no quorum.
    pub fn greatest(&self) -> &NodeSet
        ensures greatest { result.now ≡ greatest_in self.now.system }
        ensures same_n { length result.now ≡ length self.now.system.sets }
    {
        let _ = &self.system;
        &self.greatest
    }

    /// The nodes that were unmet when availability was asked for last, or none if it was not since the last edit.
    pub fn unmet(&self) -> &NodeSet
        ensures unmet { result.now ≡ self.now.unmet }
        ensures same_n { length result.now ≡ length self.now.system.sets }
    {
        &self.unmet
    }

    /// The nodes whose names stand in a list, which stands between commas: a name that is none of the system's is passed over.
    /// O(bytes + k log n) for k items and n names. Takes no memory.
    pub fn marked(&self, text: &[u8]) -> NodeSet
        ensures marked { result ≡ set_in text.now self.now.system }
        ensures same_n { length result ≡ length self.now.system.sets }
    {
        marked(text, self.system.names())
    }

    /// Whether there is quorum availability despite the set (Mazières 2015): it holds all nodes, or those outside it are a
    /// quorum. Then `unmet` has the nodes outside the set that have no slice outside it. Linear in the entries; O(n / 64) if the
    /// set has the nodes of the one that was asked for last.
    pub fn available(&mut self, set: &NodeSet) -> bool
        requires same_n { length set.now ≡ length self.old.system.sets }
        ensures asked { self.new ≡ asked self.old set.now }
        ensures answer { result ≡ is_available self.old.system.sets set.now }
        ensures available { IsTrue result ↔ Available self.old.system.sets (members set.now) }
        ensures unmet { AreUnmet self.old.system.sets (members set.now) (members self.new.unmet) }
    {
        ask(&self.system, set, &mut self.asked, &mut self.known);
        self.unmet.copy_from(&self.known);
        self.unmet.is_empty()
    }

    /// The text of the configuration in which every name of the system is a node, as `serde_json` prints it without spaces.
    /// Linear in the nodes and the entries.
    pub fn text(&self, alloc: Global) -> Result<String, AllocError>
        ensures text { IfOk result (λ text. string_bytes text ≡ config_text self.now.system) }
        ensures reads_back { IfOk result (λ text. system_of (string_bytes text) ≡ Ok self.now.system) }
    {
        write_config(alloc, &self.system)
    }

    /// Gives the node this quorum set, or none.
    fn exchange(&mut self, v: u32, set: Option<QuorumSet>) -> Result<(), AllocError>
        requires node { v < length self.old.system.sets }
        requires within { IfSome set (IsWithin (length self.old.system.names)) }
        requires few { entries_in (slice_set self.old.system.sets v set) ≤ MOST_ENTRIES }
        ensures exchanged { OnOk result (self.new ≡ started (with_set self.old.system v set)) }
        ensures unchanged { OnErr result (self.new ≡ self.old) }
    {
        let entries = entries_after(&self.system, self.entries, v, &set);
        self.system.replace(v, set)?;
        self.entries = entries;
        let none = NodeSet::new(self.system.len());
        follow(&self.system, v, &mut self.greatest, &none);
        follow_unmet(&self.system, v, &self.asked, &mut self.known);
        self.unmet = none;
        Ok(())
    }

    /// The session over the system with one name more. What is known of the system stays known, by the numbers that its nodes have
    /// then. The new node has no quorum set: it is in no quorum, and unmet despite a set that lacks it. The cost is that of the copy.
    fn with_name(&self, alloc: Global, name: &[u8]) -> Result<Session, EditFault>
        requires key { IsTrue (is_key name.now) }
        requires missing { Contains self.now.system.names name.now → ⊥ }
        ensures ok { IfOk result (λ session. with_node self.now.system name.now ≡ Ok session.system) }
        ensures fresh { IfOk result (λ session. session ≡ started session.system) }
        ensures err { IfErr result (λ e. (e ≡ EditFault.Memory) ⊎ (with_node self.now.system name.now ≡ Err e)) }
    {
        let n = self.system.len();
        let place = place_for(self.system.names(), name);
        let system = grown(alloc, &self.system, name)?;
        let mut known = moved_members(&self.known, n, place);
        known.put(place);
        Ok(Session {
            system,
            entries: self.entries,
            greatest: moved_members(&self.greatest, n, place),
            unmet: NodeSet::new(n + 1),
            asked: moved_members(&self.asked, n, place),
            known,
        })
    }

    /// The quorum set of the node that the path leads to has this threshold.
    fn set_threshold(
        &mut self,
        alloc: Global,
        node: &[u8],
        path: &[u32],
        threshold: u64,
    ) -> Result<(), EditFault>
        ensures ok { OnOk result (edited self.old.system (Threshold node.now path.now threshold) ≡ Ok self.new.system) }
        ensures err { IfErr result (λ e. (e ≡ EditFault.Memory) ⊎ (edited self.old.system (Threshold node.now path.now threshold) ≡ Err e)) }
        ensures fresh { OnOk result (self.new ≡ started self.new.system) }
        ensures unchanged { OnErr result (self.new ≡ self.old) }
    {
        let (v, own) = own_set(&self.system, node)?;
        let Some(_) = set_at(own, path) else {
            return Err(EditFault::NoSet);
        };
        let changed = changed_at(alloc, own, path, Change::Threshold(threshold))?;
        self.exchange(v, Some(changed))?;
        Ok(())
    }

    /// A name of the system is appended to the validators of the quorum set of the node that the path leads to.
    fn append(
        &mut self,
        alloc: Global,
        node: &[u8],
        path: &[u32],
        name: &[u8],
    ) -> Result<(), EditFault>
        ensures ok { OnOk result (appended self.old.system node.now path.now name.now ≡ Ok self.new.system) }
        ensures err { IfErr result (λ e. (e ≡ EditFault.Memory) ⊎ (appended self.old.system node.now path.now name.now ≡ Err e)) }
        ensures fresh { OnOk result (self.new ≡ started self.new.system) }
        ensures unchanged { OnErr result (self.new ≡ self.old) }
    {
        let (v, set) = appended_set(alloc, &self.system, self.entries, node, path, name)?;
        self.exchange(v, Some(set))?;
        Ok(())
    }

    /// The name is appended to the validators of the quorum set of the node that the path leads to.
    fn add_validator(
        &mut self,
        alloc: Global,
        node: &[u8],
        path: &[u32],
        name: &[u8],
    ) -> Result<(), EditFault>
        requires key { IsTrue (is_key name.now) }
        ensures ok { OnOk result (edited self.old.system (Add node.now path.now name.now) ≡ Ok self.new.system) }
        ensures err { IfErr result (λ e. (e ≡ EditFault.Memory) ⊎ (edited self.old.system (Add node.now path.now name.now) ≡ Err e)) }
        ensures fresh { OnOk result (self.new ≡ started self.new.system) }
        ensures unchanged { OnErr result (self.new ≡ self.old) }
    {
        let (_, own) = own_set(&self.system, node)?;
        let Some(_) = set_at(own, path) else {
            return Err(EditFault::NoSet);
        };
        let Some(_) = self.system.find(name) else {
            let mut session = self.with_name(alloc, name)?;
            session.append(alloc, node, path, name)?;
            *self = session;
            return Ok(());
        };
        self.append(alloc, node, path, name)
    }

    /// The first of the validators that has the name goes, in the quorum set of the node that the path leads to.
    fn drop_validator(
        &mut self,
        alloc: Global,
        node: &[u8],
        path: &[u32],
        name: &[u8],
    ) -> Result<(), EditFault>
        ensures ok { OnOk result (edited self.old.system (Drop node.now path.now name.now) ≡ Ok self.new.system) }
        ensures err { IfErr result (λ e. (e ≡ EditFault.Memory) ⊎ (edited self.old.system (Drop node.now path.now name.now) ≡ Err e)) }
        ensures fresh { OnOk result (self.new ≡ started self.new.system) }
        ensures unchanged { OnErr result (self.new ≡ self.old) }
    {
        let (v, own) = own_set(&self.system, node)?;
        let Some(set) = set_at(own, path) else {
            return Err(EditFault::NoSet);
        };
        let gone = validator(&self.system, set, name)?;
        let changed = changed_at(alloc, own, path, Change::Drop(gone))?;
        self.exchange(v, Some(changed))?;
        Ok(())
    }

    /// A node of the system gets a quorum set with threshold 1 and no entries.
    fn give_bare_set(&mut self, alloc: Global, node: &[u8]) -> Result<(), EditFault>
        ensures ok { OnOk result (declared self.old.system node.now ≡ Ok self.new.system) }
        ensures err { IfErr result (λ e. (e ≡ EditFault.Memory) ⊎ (declared self.old.system node.now ≡ Err e)) }
        ensures fresh { OnOk result (self.new ≡ started self.new.system) }
        ensures unchanged { OnErr result (self.new ≡ self.old) }
    {
        let v = self.system.find(node).ok_or(EditFault::UnknownNode)?;
        self.exchange(v, Some(bare_set(alloc)))?;
        Ok(())
    }

    /// The node, which has none, gets a quorum set with threshold 1 and no entries.
    fn declare(&mut self, alloc: Global, node: &[u8]) -> Result<(), EditFault>
        requires key { IsTrue (is_key node.now) }
        ensures ok { OnOk result (edited self.old.system (Declare node.now) ≡ Ok self.new.system) }
        ensures err { IfErr result (λ e. (e ≡ EditFault.Memory) ⊎ (edited self.old.system (Declare node.now) ≡ Err e)) }
        ensures fresh { OnOk result (self.new ≡ started self.new.system) }
        ensures unchanged { OnErr result (self.new ≡ self.old) }
    {
        let Some(v) = self.system.find(node) else {
            let mut session = self.with_name(alloc, node)?;
            session.give_bare_set(alloc, node)?;
            *self = session;
            return Ok(());
        };
        if self.system.quorum_set(v).is_some() {
            return Err(EditFault::Already);
        }
        self.give_bare_set(alloc, node)
    }

    /// The node has no quorum set any more.
    fn retire(&mut self, node: &[u8]) -> Result<(), EditFault>
        ensures ok { OnOk result (edited self.old.system (Retire node.now) ≡ Ok self.new.system) }
        ensures err { IfErr result (λ e. (e ≡ EditFault.Memory) ⊎ (edited self.old.system (Retire node.now) ≡ Err e)) }
        ensures fresh { OnOk result (self.new ≡ started self.new.system) }
        ensures unchanged { OnErr result (self.new ≡ self.old) }
    {
        let (v, _) = own_set(&self.system, node)?;
        self.exchange(v, None)?;
        Ok(())
    }

    fn apply(&mut self, alloc: Global, edit: &Edit<'_>) -> Result<(), EditFault>
        requires keys { HasKeys (edit_view edit.now) }
        ensures ok { OnOk result (edited self.old.system (edit_view edit.now) ≡ Ok self.new.system) }
        ensures err { IfErr result (λ e. (e ≡ EditFault.Memory) ⊎ (edited self.old.system (edit_view edit.now) ≡ Err e)) }
        ensures fresh { OnOk result (self.new ≡ started self.new.system) }
        ensures unchanged { OnErr result (self.new ≡ self.old) }
    {
        match edit {
            Edit::Threshold(target, threshold) => self.set_threshold(
                alloc,
                target.node,
                &target.path,
                *threshold,
            ),
            Edit::Add(target, name) => self.add_validator(alloc, target.node, &target.path, *name),
            Edit::Drop(target, name) => self.drop_validator(
                alloc,
                target.node,
                &target.path,
                *name,
            ),
            Edit::Declare(node) => self.declare(alloc, *node),
            Edit::Retire(node) => self.retire(*node),
        }
    }

    /// Does what a line of a script says, or refuses the line for its first fault; then the session is as it was.
    ///
    /// An edit of a node outside the greatest quorum, or after which the node still has a slice inside it, costs one look at
    /// the node; one that changes the greatest quorum what `follow` costs; one that brings a new name a copy of the system, of
    /// which nothing is found anew.
    pub fn edit(&mut self, alloc: Global, line: &[u8]) -> Result<(), EditFault>
        ensures ok { OnOk result (after_line self.old.system line.now ≡ Ok self.new.system) }
        ensures err { IfErr result (λ e. (e ≡ EditFault.Memory) ⊎ (after_line self.old.system line.now ≡ Err e)) }
        ensures fresh { OnOk result (self.new ≡ started self.new.system) }
        ensures unchanged { OnErr result (self.new ≡ self.old) }
    {
        let edit = read_edit(alloc, line)?;
        self.apply(alloc, &edit)
    }
}
