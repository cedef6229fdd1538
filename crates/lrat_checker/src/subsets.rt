//! Whether a held clause is a subset of a list: each clause stands in the list of one of its literals, a rare one, so that only
//! the lists of asked literals are looked at (Zhang 2005, On Subsumption Removal and On-the-Fly CNF Simplification).
ghost use Rattle.std.specs.Prelude.{◌≡◌, ℕ, ◌<◌, ◌++◌, List, [], ◌∷◌, None, length, true, false, Some, IfOk, IfSome, OnOk, MatchBool, slice_set};
ghost use Rattle.std.specs.Bool.{OnTrue};
ghost use Rattle.std.specs.List.{list_all, list_any};
ghost use Rattle.lrat_model.specs.Literal.{Literal, has, IsSubset};
ghost use Rattle.lrat_model.specs.Clauses.{Held, clause_at, with_clause};
ghost use Rattle.lrat_checker.specs.Covers.{Covers};
ghost use Rattle.lrat_checker.specs.Keys.{slot_of, signature_of};
ghost use Rattle.lrat_checker.specs.Subsets.{list_at, IsCode, is_watch_of, IsFound, AreFound};

use crate::keys::{code_of, signature_of, slot_of};
use clause_store::Store;
use lrat_model::Lit;
use std::alloc::{AllocError, Global};
use std::marker::Model;

/// A clause by its id, and the bits of its literals: with one that is not asked for, the clause need not be looked at.
#[derive(Clone, Copy)]
pub struct Watch {
    pub id: u64,
    pub signature: u64,
}

/// The code of no literal: here the clauses without one stand.
const NO_LITERAL: u64 = 0;

/// The fewest lists.
const LISTS: usize = 1024;

/// How many counts of literals there are.
const COUNTS: usize = 65_536;

/// Clauses, each in the list of one of its literals. Literals whose codes meet in a slot share its list. Seen as the lists.
#[derive(Drop)]
pub struct SubsetIndex {
    lists: Vec<Vec<Watch>>,
    // How often each literal stood in clauses, by which lists are chosen.
    counts: Vec<u32>,
    // How many watches there are, and how many of them may be of clauses that are held no more.
    watches: usize,
    stale: usize,
}

impl Model for SubsetIndex {
    ghost use Rattle.std.specs.Prelude.{◌<◌, List, map, length};
    ghost use Rattle.lrat_checker.specs.declared.subsets.Watch.{Watch};

    ghost Value = { List (List Watch) };

    ghost view = { λ s. map (λ v. v.items) s.lists.items };

    ghost invariant = { λ s. 0 < length s.lists.items };
}

/// What is asked: whether a clause held under a smaller id is a subset of the literals.
#[derive(Clone, Copy)]
struct Asked<'a> {
    store: &'a Store,
    id: u64,
    lits: &'a [Lit],
    signature: u64,
}

/// As many empty lists, one after another.
fn empty_lists(alloc: Global, slots: usize) -> Result<Vec<Vec<Watch>>, AllocError>
    ensures { IfOk result (λ lists. length lists.items ≡ slots) }
{
    let mut lists = Vec::with_capacity(alloc, slots)?;
    let mut made = 0;
    while made < slots {
        lists.push(Vec::new(alloc))?;
        made += 1;
    }
    Ok(lists)
}

/// Counts the literals of a clause, as far as the counts go.
fn count_literals(counts: &mut [u32], lits: &[Lit]) {
    for l in lits {
        if let Some(count) = counts.get_mut(code_of(*l) as usize % COUNTS) {
            *count = count.saturating_add(1);
        }
    }
}

/// How many clauses the store holds. Counts their literals.
fn count_all(store: &Store, counts: &mut [u32]) -> usize {
    let last = store.last();
    let mut above = 0;
    let mut held = 0usize;
    while let Some((id, lits)) = store.first_above(above) {
        count_literals(counts, lits);
        held = held.saturating_add(1);
        if id >= last {
            break;
        }
        above = id;
    }
    held
}

impl SubsetIndex {
    /// No clause, with lists for those of a store, and counts of their literals. O(literals held).
    fn new(alloc: Global, store: &Store) -> Result<SubsetIndex, AllocError> {
        let mut counts = Vec::new(alloc);
        counts.resize(COUNTS, 0)?;
        let held = count_all(store, &mut counts);
        let slots = (held / 2).clamp(LISTS, 1 << 40).next_power_of_two();
        Ok(SubsetIndex {
            lists: empty_lists(alloc, slots)?,
            counts,
            watches: 0,
            stale: 0,
        })
    }

    /// The clauses of a store, or nothing where memory runs out. O(literals held).
    pub fn of(alloc: Global, store: &Store) -> Option<SubsetIndex>
        ensures { IfSome result (AreFound store.now.held) }
    {
        let mut index = SubsetIndex::new(alloc, store).ok()?;
        let last = store.last();
        let mut above = 0;
        while let Some((id, lits)) = store.first_above(above) {
            if above >= last || index.put(id, lits).is_err() {
                return None;
            }
            above = id;
        }
        Some(index)
    }

    /// The list of a literal's code.
    fn list(&self, code: u64) -> &[Watch]
        ensures { result.now ≡ list_at self.now code }
    {
        &self.lists[slot_of(self.lists.len(), code)]
    }

    /// One watch more in the list of a code.
    fn push(&mut self, code: u64, watch: Watch) -> Result<(), AllocError>
        ensures pushed { OnOk result (self.new ≡ slice_set self.old (slot_of (length self.old) code) (list_at self.old code ++ watch ∷ [])) }
        ensures within { slot_of (length self.old) code < length self.old }
    {
        let slot = slot_of(self.lists.len(), code);
        self.lists[slot].push(watch)?;
        self.watches = self.watches.saturating_add(1);
        Ok(())
    }

    /// Counts the literals of a clause.
    fn count(&mut self, lits: &[Lit])
        ensures { self.new ≡ self.old }
    {
        count_literals(&mut self.counts, lits);
    }

    /// How often a literal was counted, or one that shares its count.
    fn times(&self, l: Lit) -> u32 {
        match self.counts.get(code_of(l) as usize % COUNTS) {
            Some(count) => *count,
            None => 0,
        }
    }

    /// The rarest literal of a clause, if it has one.
    fn rarest(&self, lits: &[Lit]) -> Option<Lit>
        ensures { IfSome result (λ l. has lits.now l ≡ true) }
    {
        let mut best = lits.len();
        let mut fewest = u32::MAX;
        for place in 0..lits.len() {
            let times = self.times(lits[place]);
            if times < fewest {
                best = place;
                fewest = times;
            }
        }
        if best < lits.len() {
            Some(lits[best])
        } else {
            None
        }
    }

    /// The code in whose list a clause is to stand.
    fn code(&self, lits: &[Lit]) -> u64
        ensures { IsCode lits.now result }
    {
        match self.rarest(lits) {
            Some(l) => code_of(l),
            None => NO_LITERAL,
        }
    }

    /// One clause more. O(its literals), amortised.
    fn put(&mut self, id: u64, lits: &[Lit]) -> Result<(), AllocError>
        ensures found { OnOk result (IsFound self.new id lits.now) }
        ensures kept { OnOk result ((k : ℕ) (clause : List Literal) → IsFound self.old k clause → IsFound self.new k clause) }
    {
        let code = self.code(lits);
        let signature = signature_of(lits);
        self.push(code, Watch { id, signature })
    }

    /// Whether a clause held under a smaller id is a subset of the list.
    /// O(clauses in the lists of its literals), where few of them have no other literals; at worst as `scan`.
    pub fn covers(&self, store: &Store, id: u64, lits: &[Lit]) -> bool
        requires { AreFound store.now.held self.now }
        ensures { MatchBool result (Covers store.now.held id lits.now) (¬ Covers store.now.held id lits.now) }
    {
        let asked = Asked {
            store,
            id,
            lits,
            signature: signature_of(lits),
        };
        if is_in_list(&asked, self.list(NO_LITERAL)) {
            return true;
        }
        for l in lits {
            if is_in_list(&asked, self.list(code_of(*l))) {
                return true;
            }
        }
        false
    }

    /// Whether the lists have grown long.
    fn is_full(&self) -> bool {
        self.watches / 4 >= self.lists.len()
    }
}

/// Puts the last clause of the store into the index, if there is one. Where memory runs out there is none any more.
/// O(its literals), amortised.
pub fn put_clause(index: &mut Option<SubsetIndex>, store: &Store, id: u64, lits: &[Lit])
    ensures { (held : Held) → store.now.held ≡ with_clause held id lits.now → IfSome index.old (AreFound held) → IfSome index.new (AreFound store.now.held) }
{
    let Some(subsets) = index else {
        return;
    };
    if subsets.is_full() {
        let alloc = *subsets.lists.allocator();
        *index = SubsetIndex::of(alloc, store);
        return;
    }
    subsets.count(lits);
    if subsets.put(id, lits).is_err() {
        *index = None;
    }
}

/// What the index loses where this many clauses are taken out of the store: it is made anew once more than a quarter of
/// its watches may be of clauses that are held no more. O(1), or O(literals held), amortised.
pub fn forget(index: &mut Option<SubsetIndex>, store: &Store, removed: usize)
    requires { IfSome index.old (AreFound store.now.held) }
    ensures { IfSome index.new (AreFound store.now.held) }
{
    let Some(subsets) = index else {
        return;
    };
    subsets.stale = subsets.stale.saturating_add(removed);
    if subsets.stale > subsets.watches / 4 {
        let alloc = *subsets.lists.allocator();
        *index = SubsetIndex::of(alloc, store);
    }
}

/// Whether a clause of those that are asked for stands in this list.
fn is_in_list(asked: &Asked, list: &[Watch]) -> bool
    requires { asked.now.signature ≡ signature_of asked.now.lits.now }
    ensures yes { OnTrue result (Covers asked.now.store.now.held asked.now.id asked.now.lits.now) }
    ensures no { result ≡ false → (k : ℕ) (clause : List Literal) → k < asked.now.id → clause_at asked.now.store.now.held k ≡ Some clause → IsSubset clause asked.now.lits.now → list_any (is_watch_of k clause) list.now ≡ false }
{
    for watch in list {
        if is_asked(asked, watch) {
            return true;
        }
    }
    false
}

/// Whether the watch is that of a clause held under a smaller id, a subset of the literals.
fn is_asked(asked: &Asked, watch: &Watch) -> bool
    requires { asked.now.signature ≡ signature_of asked.now.lits.now }
    ensures yes { OnTrue result (Covers asked.now.store.now.held asked.now.id asked.now.lits.now) }
    ensures no { result ≡ false → (k : ℕ) (clause : List Literal) → k < asked.now.id → clause_at asked.now.store.now.held k ≡ Some clause → IsSubset clause asked.now.lits.now → is_watch_of k clause watch.now ≡ false }
{
    if asked.signature | watch.signature != asked.signature {
        return false;
    }
    if watch.id >= asked.id {
        return false;
    }
    match asked.store.lits(watch.id) {
        Some(clause) => is_subset(clause, asked.lits),
        None => false,
    }
}

/// Whether a clause held under a smaller id is a subset of the list, by a look at each.
/// O(literals held under smaller ids x literals of the list).
pub fn scan(store: &Store, id: u64, lits: &[Lit]) -> bool
    ensures { MatchBool result (Covers store.now.held id lits.now) (¬ Covers store.now.held id lits.now) }
{
    let mut above = 0;
    while let Some((next, clause)) = store.first_above(above) {
        if next >= id {
            return false;
        }
        if is_subset(clause, lits) {
            return true;
        }
        above = next;
    }
    false
}

/// Whether the literal is in the list.
pub fn has(literals: &[Lit], l: Lit) -> bool
    ensures { result ≡ has literals.now l }
{
    literals.iter().any(|m| l.same(*m))
}

/// Whether each literal of the one is in the other.
fn is_subset(small: &[Lit], large: &[Lit]) -> bool
    ensures { result ≡ list_all (has large.now) small.now }
{
    small.iter().all(|l| has(large, *l))
}
