//! The names of the nodes.

ghost use Rattle.std.specs.Prelude.{◌≡◌, ℕ, ◌<◌, ◌^◌, length, map, vec_len, IfOk, IfSome, slice_get, MatchOption, Contains};
ghost use Rattle.std.specs.List.Sorted.{IsStrictlySortedBy};
ghost use Rattle.fbas_model.specs.Names.{AreNamesOf, name_cmp, place_of};
ghost use Rattle.fbas_model.specs.Restriction.{kept as kept_of};

use crate::NodeSet;
use std::alloc::{AllocError, Global};
use std::cmp::Ordering;
use std::marker::Model;

/// The names of the nodes, sorted, each once.
#[derive(Drop)]
pub struct Names {
    list: Vec<Vec<u8>>,
}

impl Model for Names {
    ghost use Rattle.std.specs.Prelude.{◌<◌, ◌^◌, ℕ, List, length, map};
    ghost use Rattle.std.specs.List.Sorted.{IsStrictlySortedBy};
    ghost use Rattle.fbas_model.specs.Names.{Name, name_cmp};

    ghost Value = { List Name };

    ghost view = { λ n. map (λ name. name.items) n.list.items };

    ghost invariant = { λ n. IsStrictlySortedBy name_cmp (map (λ name. name.items) n.list.items) × (length n.list.items < 2 ^ 32) };
}

impl Names {
    /// The distinct names of a list, in byte order. Costs a sort of the list, and takes no memory beside it.
    pub fn of(mut list: Vec<Vec<u8>>) -> Result<Names, AllocError>
        requires { vec_len list < 2 ^ 32 }
        ensures { IfOk result (λ names. AreNamesOf (map (λ name. name.items) list.items) names) }
    {
        list.sort_unstable();
        list.dedup();
        Ok(Names { list })
    }

    /// The names at the places in the set, in the same order: O(n / 64), and a copy of each of them.
    pub fn kept(&self, alloc: Global, kept: &NodeSet) -> Result<Names, AllocError>
        requires { length kept.now ≡ length self.now }
        ensures { IfOk result (λ names. names ≡ kept_of kept.now self.now) }
    {
        let mut list = Vec::with_capacity(alloc, kept.count() as usize)?;
        self.rise();
        for at in kept.iter() {
            list.push(Vec::from_slice(alloc, self.name(at))?)?;
        }
        Ok(Names { list })
    }

    /// How many names there are.
    pub fn len(&self) -> u32
        ensures { result ≡ length self.now }
    {
        self.list.len() as u32
    }

    /// The names stand in strictly rising order. Does nothing.
    pub fn rise(&self)
        ensures { IsStrictlySortedBy name_cmp self.now }
    {
        let _ = &self.list;
    }

    /// The name at a place.
    pub fn name(&self, at: u32) -> &[u8]
        requires { at < length self.now }
        ensures { slice_get self.now at ≡ Some result.now }
    {
        &self.list[at as usize]
    }

    /// The place of a name, the only one that it has, or none where it is not among them: O(log n) comparisons.
    pub fn find(&self, name: &[u8]) -> Option<u32>
        ensures found { MatchOption result (Contains self.now name.now → ⊥) (λ at. slice_get self.now at ≡ Some name.now) }
        ensures place { result ≡ place_of self.now name.now }
        ensures below { IfSome result (λ at. at < length self.now) }
        ensures only { IfSome result (λ at. (other : ℕ) → slice_get self.now other ≡ Some name.now → other ≡ at) }
    {
        let mut low = 0;
        let mut high = self.list.len();
        while low < high {
            let middle = low + (high - low) / 2;
            match self.list[middle].as_slice().cmp(name) {
                Ordering::Less => low = middle + 1,
                Ordering::Equal => return Some(middle as u32),
                Ordering::Greater => high = middle,
            }
        }
        None
    }

    /// The place of a name, as `find` gives it, looked for first at a guessed place: O(1) where the name stands there, else
    /// O(log n) comparisons.
    pub fn find_from(&self, guess: u32, name: &[u8]) -> Option<u32>
        ensures { result ≡ place_of self.now name.now }
    {
        self.rise();
        if guess < self.len() && self.name(guess) == name {
            return Some(guess);
        }
        self.find(name)
    }
}
