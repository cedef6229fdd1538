//! Which lemmas a search holds, and which of them it forgets: those that cost most, as of many decision levels, and of
//! these the oldest first (after the 'literal block distance' of Audemard and Simon, 'Predicting learnt clauses quality in
//! modern SAT solvers', 2009), but none that is the reason of a literal on the trail.
ghost use Rattle.std.specs.Prelude.{◌≡◌, ◌⊎◌, ℕ, ◌+◌, ◌<◌, ◌≤◌, ◌∷◌, ◌++◌, [], not, true, false, None, filter, All, AllPairs, IfOk, IfSome, Ok, OnOk, OnErr, MatchBool, if◌then◌else◌, length, slice_index};
ghost use Rattle.std.specs.List.{AllWithin};
ghost use Rattle.std.specs.List.Sorted.{IsNonDecreasingBy};
ghost use Rattle.lrat_model.specs.Clauses.{has_id};
ghost use Rattle.cdcl_core.specs.declared.memory.TheConstants.{FEWEST_DELETED, MOST_DELETED};
ghost use Rattle.cdcl_core.specs.Log.{least_live, most_live};
ghost use Rattle.cdcl_core.specs.Remembering.{IsChosen};

use search_heuristics::{Uses, entry_or};
use std::alloc::{AllocError, Global};

/// The fewest lemmas that a deletion takes.
pub const FEWEST_DELETED: usize = 500;

/// The most lemmas that a deletion takes.
pub const MOST_DELETED: usize = 1000;

/// This many lemmas are live at least where the first deletion comes.
pub const FEWEST_LIVE: u64 = 2000;

/// This many lemmas may be live before the first deletion, and one more for each variable.
pub const MOST_LIVE: u64 = 8000;

/// A lemma of less cost stays while others have more.
const LEAST_COST: u32 = 3;

const MOST_COST: u32 = 400;

/// The ids of the lemmas that are held and have a literal, which rise, and what each costs; which of them were used of
/// late; how many deletions there were; and how many lemmas are to be live before the next is tried.
#[derive(Drop)]
pub struct Memory {
    pub ids: Vec<u64>,
    pub costs: Vec<u32>,
    pub uses: Uses,
    pub deletions: u64,
    pub due: usize,
}

impl Memory {
    /// No lemma.
    pub fn new(alloc: Global) -> Memory
        ensures ids { result.ids.items ≡ [] }
        ensures deletions { result.deletions ≡ 0 }
    {
        Memory {
            ids: Vec::new(alloc),
            costs: Vec::new(alloc),
            uses: Uses::new(alloc),
            deletions: 0,
            due: 0,
        }
    }

    /// One lemma more, of this cost, which came from those of these hints. Linear in these.
    pub fn note(&mut self, id: u64, cost: u32, hints: &[i64]) -> Result<(), AllocError>
        ensures ids { OnOk result (self.new.ids.items ≡ self.old.ids.items ++ id ∷ []) }
        ensures deletions { self.new.deletions ≡ self.old.deletions }
        ensures unchanged { OnErr result (self.new.ids.items ≡ self.old.ids.items) }
    {
        self.uses.see(id, hints)?;
        self.costs.push(cost.min(MOST_COST))?;
        self.ids.push(id)?;
        Ok(())
    }

    /// The lemmas that go where a deletion comes now, none where it does not: those of great cost, where there
    /// are enough of them; and any, where no more lemma has room. Reasons are passed over.
    pub fn choose(
        &mut self,
        alloc: Global,
        vars: u32,
        reasons: &[u64],
    ) -> Result<Option<Vec<u64>>, AllocError>
        requires rise { AllPairs (λ j k. j < k) self.old.ids.items }
        requires few { length reasons.now ≤ vars }
        ensures ids { self.new.ids ≡ self.old.ids }
        ensures deletions { self.new.deletions ≡ self.old.deletions }
        ensures none { result ≡ Ok None → length self.new.ids.items < most_live vars self.new.deletions }
        ensures chosen { IfOk result (λ found. IfSome found (λ gone. IsChosen self.new.ids.items reasons.now gone.items)) }
        ensures fewest { IfOk result (λ found. IfSome found (λ gone. FEWEST_DELETED ≤ length gone.items)) }
        ensures earned { IfOk result (λ found. IfSome found (λ gone. least_live self.new.deletions ≤ length self.new.ids.items)) }
    {
        if !self.is_due(vars) {
            return Ok(None);
        }
        let needed = sorted(alloc, reasons)?;
        self.choose_but(alloc, vars, &needed)
    }

    /// The same where a deletion is due, and of the lemmas that are not needed.
    fn choose_but(
        &mut self,
        alloc: Global,
        vars: u32,
        needed: &[u64],
    ) -> Result<Option<Vec<u64>>, AllocError>
        requires rise { AllPairs (λ j k. j < k) self.old.ids.items }
        requires sorted { IsNonDecreasingBy (λ k. k) needed.now }
        requires few { length needed.now ≤ vars }
        requires earned { least_live self.old.deletions ≤ length self.old.ids.items }
        ensures ids { self.new.ids ≡ self.old.ids }
        ensures deletions { self.new.deletions ≡ self.old.deletions }
        ensures none { result ≡ Ok None → length self.new.ids.items < most_live vars self.new.deletions }
        ensures chosen { IfOk result (λ found. IfSome found (λ gone. IsChosen self.new.ids.items needed.now gone.items)) }
        ensures fewest { IfOk result (λ found. IfSome found (λ gone. FEWEST_DELETED ≤ length gone.items)) }
    {
        let gone = self.dearest(alloc, needed)?;
        let are_enough = gone.len() >= FEWEST_DELETED;
        if are_enough {
            return Ok(Some(gone));
        }
        drop(gone);
        if self.is_full(vars) {
            let gone = self.part(alloc, needed, 0)?;
            return Ok(Some(gone));
        }
        self.due = self.ids.len() + FEWEST_DELETED;
        Ok(None)
    }

    /// The lemmas of great cost that are not needed, the oldest of these, at most `MOST_DELETED`.
    fn dearest(&self, alloc: Global, needed: &[u64]) -> Result<Vec<u64>, AllocError>
        requires rise { AllPairs (λ j k. j < k) self.now.ids.items }
        requires sorted { IsNonDecreasingBy (λ k. k) needed.now }
        ensures chosen { IfOk result (λ gone. IsChosen self.now.ids.items needed.now gone.items) }
    {
        let least = self.least_cost(alloc)?;
        self.part(alloc, needed, least)
    }

    /// Whether a deletion is tried: where as many lemmas are live as it asks, and always where no more has room.
    fn is_due(&self, vars: u32) -> bool
        ensures yes { result ≡ true → least_live self.now.deletions ≤ length self.now.ids.items }
        ensures no { result ≡ false → length self.now.ids.items < most_live vars self.now.deletions }
    {
        self.is_earned() && (self.ids.len() >= self.due || self.is_full(vars))
    }

    /// Whether as many lemmas are live as the next deletion asks.
    fn is_earned(&self) -> bool
        ensures { MatchBool result (least_live self.now.deletions ≤ length self.now.ids.items) (length self.now.ids.items < least_live self.now.deletions) }
    {
        let live = self.ids.len() as u64;
        live >= FEWEST_LIVE && (live - FEWEST_LIVE) / FEWEST_DELETED as u64 >= self.deletions
    }

    /// Whether no more lemma has room.
    fn is_full(&self, vars: u32) -> bool
        ensures { MatchBool result (most_live vars self.now.deletions ≤ length self.now.ids.items) (length self.now.ids.items < most_live vars self.now.deletions) }
    {
        let live = self.ids.len() as u64;
        let least = vars as u64 + MOST_LIVE;
        live >= least && (live - least) / FEWEST_DELETED as u64 >= self.deletions
    }

    /// The cost from which on a lemma goes: the greatest from which on there are enough lemmas.
    fn least_cost(&self, alloc: Global) -> Result<u32, AllocError> {
        let counts = self.counts(alloc)?;
        let mut least = MOST_COST;
        let mut count = entry_or(&counts, least as usize, 0);
        while least > LEAST_COST && count < MOST_DELETED {
            least -= 1;
            count = count.saturating_add(entry_or(&counts, least as usize, 0));
        }
        Ok(least)
    }

    /// How many lemmas have each cost.
    fn counts(&self, alloc: Global) -> Result<Vec<usize>, AllocError> {
        let mut counts = vec![in alloc; 0usize; MOST_COST as usize + 1]?;
        for place in 0..self.ids.len() {
            if let Some(count) = counts.get_mut(self.cost_now(place) as usize) {
                *count = count.saturating_add(1);
            }
        }
        Ok(counts)
    }

    /// What the lemma at a place costs now: nothing while it is used.
    fn cost_now(&self, place: usize) -> u32 {
        if self.uses.are_late(entry_or(&self.ids, place, 0)) {
            0
        } else {
            entry_or(&self.costs, place, 0)
        }
    }

    /// The oldest lemmas that cost this or more and are not needed, at most `MOST_DELETED`.
    fn part(&self, alloc: Global, needed: &[u64], least: u32) -> Result<Vec<u64>, AllocError>
        requires rise { AllPairs (λ j k. j < k) self.now.ids.items }
        requires sorted { IsNonDecreasingBy (λ k. k) needed.now }
        ensures chosen { IfOk result (λ gone. IsChosen self.now.ids.items needed.now gone.items) }
        ensures all { least ≡ 0 → IfOk result (λ gone. length gone.items < MOST_DELETED → All (λ k. (has_id gone.items k ≡ true) ⊎ (has_id needed.now k ≡ true)) self.now.ids.items) }
    {
        let mut gone = Vec::new(alloc);
        let mut place = 0;
        while place < self.ids.len() {
            let goes = self.goes(place, gone.len(), needed, least);
            put(&mut gone, self.ids[place], goes)?;
            place += 1;
        }
        Ok(gone)
    }

    /// Whether the lemma at a place goes, after this many others.
    fn goes(&self, place: usize, count: usize, needed: &[u64], least: u32) -> bool
        requires place { place < length self.now.ids.items }
        requires sorted { IsNonDecreasingBy (λ k. k) needed.now }
        ensures yes { result ≡ true → (count < MOST_DELETED) × (has_id needed.now (slice_index self.now.ids.items place) ≡ false) }
        ensures no { result ≡ false → least ≡ 0 → count < MOST_DELETED → has_id needed.now (slice_index self.now.ids.items place) ≡ true }
    {
        count < MOST_DELETED && self.has_from(place, least) && !is_among(needed, self.ids[place])
    }

    /// Whether the lemma at a place costs this or more.
    fn has_from(&self, place: usize, least: u32) -> bool
        ensures { least ≡ 0 → result ≡ true }
    {
        self.cost_now(place) >= least
    }

    /// What is left when these lemmas are deleted.
    pub fn all_but(&self, alloc: Global, gone: &[u64]) -> Result<Memory, AllocError>
        requires sorted { IsNonDecreasingBy (λ k. k) gone.now }
        requires earned { least_live self.now.deletions ≤ length self.now.ids.items }
        ensures ids { IfOk result (λ memory. memory.ids.items ≡ filter (λ k. not (has_id gone.now k)) self.now.ids.items) }
        ensures deletions { IfOk result (λ memory. memory.deletions ≡ self.now.deletions + 1) }
    {
        let uses = self.uses.copy(alloc)?;
        let mut ids = Vec::new(alloc);
        let mut costs = Vec::new(alloc);
        let mut place = 0;
        while place < self.ids.len() {
            let id = self.ids[place];
            let stays = !is_among(gone, id);
            put(&mut ids, id, stays)?;
            if stays {
                costs.push(entry_or(&self.costs, place, 0))?;
            }
            place += 1;
        }
        Ok(Memory {
            ids,
            costs,
            uses,
            deletions: self.deletions + 1,
            due: 0,
        })
    }
}

/// Puts an id after others, if it is one of them.
fn put(ids: &mut Vec<u64>, id: u64, is_one: bool) -> Result<(), AllocError>
    ensures { OnOk result (ids.new.items ≡ ids.old.items ++ (if is_one then id ∷ [] else [])) }
{
    if is_one {
        ids.push(id)?;
    }
    Ok(())
}

/// A copy in which numbers do not fall.
fn sorted(alloc: Global, ids: &[u64]) -> Result<Vec<u64>, AllocError>
    ensures sorted { IfOk result (λ copy. IsNonDecreasingBy (λ k. k) copy.items) }
    ensures same { IfOk result (λ copy. (k : ℕ) → has_id copy.items k ≡ has_id ids.now k) }
    ensures len { IfOk result (λ copy. length copy.items ≡ length ids.now) }
{
    let mut copy = Vec::new(alloc);
    copy.extend_from_slice(ids)?;
    copy.sort_unstable();
    Ok(copy)
}

/// Whether an id is among ids that do not fall. O(log n) of n ids.
pub fn is_among(ids: &[u64], id: u64) -> bool
    requires { IsNonDecreasingBy (λ k. k) ids.now }
    ensures { result ≡ has_id ids.now id }
{
    let above = first_above(ids, id);
    above > 0 && ids[above - 1] == id
}

/// The first place of a greater id.
fn first_above(ids: &[u64], id: u64) -> usize
    requires { IsNonDecreasingBy (λ k. k) ids.now }
    ensures bound { result ≤ length ids.now }
    ensures below { AllWithin (λ k. k ≤ id) ids.now 0 result }
    ensures above { AllWithin (λ k. id < k) ids.now result (length ids.now) }
{
    ids.partition_point(|k| *k <= id)
}
