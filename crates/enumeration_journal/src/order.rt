//! Sets in name order.
ghost use Rattle.std.specs.Prelude.{◌≡◌, ◌≤◌, ◌↔◌, ◌++◌, [], ◌∷◌, ℕ, length, All, Contains, OnOk, OnErr};
ghost use Rattle.std.specs.List.Sorted.{IsStrictlySortedBy};
ghost use Rattle.fbas_model.specs.Nodes.{Table, set_cmp};
ghost use Rattle.std.specs.Ordering.{eq_by_cmp};
ghost use Rattle.enumeration_journal.specs.Order.{ordered};

use name_set::{MOST_WORDS, NODE_WORDS, NodeWords, cmp_sets};
use std::alloc::{AllocError, Global};
use std::cmp::Ordering;
use std::marker::Model;

/// A list of sets.
#[derive(Drop)]
pub struct SetList<const W: usize> {
    sets: Vec<NodeWords<W>>,
}

/// A list of sets of nodes.
pub type NodeSets = SetList<NODE_WORDS>;

impl<const W: usize> Model for SetList<W> {
    ghost use Rattle.std.specs.Prelude.{List};
    ghost use Rattle.fbas_model.specs.Nodes.{Table};

    ghost Value = { List Table };

    ghost view = { λ list. list.sets.items };
}

impl<const W: usize> SetList<W> {
    /// No set. Takes no memory.
    pub fn new(alloc: Global) -> SetList<W>
        ensures { result ≡ [] }
    {
        SetList {
            sets: Vec::new(alloc),
        }
    }

    /// Adds a set after the others. Where memory runs out the list is as it was. O(1), amortised.
    pub fn push(&mut self, set: NodeWords<W>) -> Result<(), AllocError>
        ensures pushed { OnOk result (self.new ≡ self.old ++ set.entry ∷ []) }
        ensures unchanged { OnErr result (self.new ≡ self.old) }
    {
        self.sets.push(set)?;
        Ok(())
    }

    /// The sets in their order: O(1).
    pub fn as_slice(&self) -> &[NodeWords<W>]
        ensures { result.now ≡ self.now }
    {
        &self.sets
    }

    /// The different sets in name order, as `rising` gives them.
    pub fn ordered(self) -> SetList<W>
        requires { W ≤ MOST_WORDS }
        ensures { (n : ℕ) → All (λ s. length s ≡ n) self.entry → result ≡ ordered self.entry }
    {
        SetList {
            sets: rising(self.sets),
        }
    }
}

/// The different sets of a list, in name order. Costs a sort, and takes no memory beside it.
pub fn rising<const W: usize>(mut sets: Vec<NodeWords<W>>) -> Vec<NodeWords<W>>
    requires { W ≤ MOST_WORDS }
    ensures rising { IsStrictlySortedBy set_cmp result.items }
    ensures same { (n : ℕ) → All (λ s. length s ≡ n) sets.entry.items → (s : Table) → Contains result.items s ↔ Contains sets.entry.items s }
    ensures ordered { (n : ℕ) → All (λ s. length s ≡ n) sets.entry.items → result.items ≡ ordered sets.entry.items }
{
    sets.sort_unstable_by(
        |a: &NodeWords<W>, b: &NodeWords<W>| -> Ordering
            ensures { result ≡ set_cmp a.now b.now }
        { cmp_sets(a, b) },
    );
    sets.dedup_by(
        |a: &mut NodeWords<W>, b: &mut NodeWords<W>| -> bool
            ensures same { result ≡ eq_by_cmp set_cmp a.old b.old }
            ensures kept { (a.new ≡ a.old) × (b.new ≡ b.old) }
        { cmp_sets(a, b).is_eq() },
    );
    sets
}
