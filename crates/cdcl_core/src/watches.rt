//! For each literal the clauses that watch it.
ghost use Rattle.std.specs.Prelude.{◌≡◌, ℕ, ◌<◌, ◌++◌, [], ◌∷◌, OnOk, IfOk, ◌^◌, ◌*◌, ◌+◌, length, slice_set};
ghost use Rattle.lrat_model.specs.Literal.{Literal};
ghost use Rattle.cdcl_core.specs.Watches.{index_of, list_at};

use lrat_model::Lit;
use std::alloc::{AllocError, Global};
use std::marker::Model;
use std::mem::replace;

/// The literals that a clause watches, twice the same where it watches one; a clause that is counted watches none: a
/// gate's count of false inputs tells of it.
#[derive(Clone, Copy)]
pub struct Pair {
    pub first: Lit,
    pub second: Lit,
    pub is_counted: bool,
}

/// A clause by its place, and one of its literals: while that is true, the clause need not be looked at. Of a
/// clause of up to three literals the watch has all, the last as the third, so that it is never looked at; of a
/// longer one the third is the watched literal once more.
#[derive(Clone, Copy)]
pub struct Watch {
    pub place: u32,
    pub blocker: Lit,
    pub third: Lit,
}

/// For each literal a list, seen as the list of these lists.
#[derive(Drop)]
pub struct WatchLists {
    lists: Vec<Vec<Watch>>,
}

impl Model for WatchLists {
    ghost use Rattle.std.specs.Prelude.{List, map};
    ghost use Rattle.cdcl_core.specs.declared.watches.Watch.{Watch};

    ghost Value = { List (List Watch) };

    ghost view = { λ s. map (λ v. v.items) s.lists.items };
}

/// Where the list of a literal stands.
fn place_of(l: Lit) -> usize
    ensures { result ≡ index_of l }
{
    let x = 2 * l.variable() as usize;
    if l.number() > 0 { x } else { x + 1 }
}

impl WatchLists {
    /// This many empty lists.
    pub fn new(alloc: Global, count: usize) -> Result<WatchLists, AllocError>
        ensures length { IfOk result (λ lists. length lists ≡ count) }
        ensures empty { IfOk result (λ lists. (l : Literal) → list_at lists l ≡ []) }
    {
        let mut lists = Vec::with_capacity(alloc, count)?;
        let mut done = 0;
        while done < count {
            lists.push(Vec::new(alloc))?;
            done += 1;
        }
        Ok(WatchLists { lists })
    }

    /// Takes the list of a literal out.
    pub fn take(&mut self, alloc: Global, l: Lit) -> Vec<Watch>
        requires { index_of l < length self.old }
        ensures list { result.items ≡ list_at self.old l }
        ensures rest { self.new ≡ slice_set self.old (index_of l) [] }
    {
        replace(&mut self.lists[place_of(l)], Vec::new(alloc))
    }

    /// Puts the list of a literal in.
    pub fn put(&mut self, l: Lit, list: Vec<Watch>)
        requires { index_of l < length self.old }
        ensures { self.new ≡ slice_set self.old (index_of l) list.items }
    {
        self.lists[place_of(l)] = list;
    }

    /// One watch more for a literal.
    pub fn push(&mut self, l: Lit, watch: Watch) -> Result<(), AllocError>
        requires { index_of l < length self.old }
        ensures { OnOk result (self.new ≡ slice_set self.old (index_of l) (list_at self.old l ++ watch ∷ [])) }
    {
        self.lists[place_of(l)].push(watch)?;
        Ok(())
    }
}
