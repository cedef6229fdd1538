//! Sets of numbers as machine words, 64 numbers a word.

ghost use Rattle.std.specs.Prelude.{◌≡◌, ℕ, ◌+◌, ◌*◌, ◌/◌, ◌<◌, ◌≤◌, ◌↔◌, Bool, List, length, IsTrue, MatchBool, MatchOption, nat_lt};
ghost use Rattle.fbas_model.specs.Nodes.{Nodes, Table, members, ◌∈◌, ◌⊆◌, ∅, only, ◌∪◌, ◌∖◌, ◌∩◌, Meets, IsInhabited, IsLeast, HasNoneFrom, IsLeastFrom, size, listed_from, set_cmp};
ghost use Rattle.std.specs.Iterator.{YieldsFirst, item_count};
ghost use Rattle.name_set.specs.Words.{PartAt, IsRest, IsFirst};

use fbas_model::{MOST_NODES, MOST_ORGS};
use std::cmp::Ordering;
use std::marker::Model;

/// The most words that a set may have.
pub const MOST_WORDS: usize = 1024;

/// A set of numbers below some n, which is fixed when the set is made, as W words of 64 bits.
///
/// Two sets that meet in one call have the same n, and a number that is handed in is below it.
#[derive(Drop)]
pub struct NodeWords<const W: usize> {
    words: [u64; W],
    n: u32,
}

/// How many words a set of the nodes of a system has.
pub const NODE_WORDS: usize = MOST_NODES / 64;

/// A set of the nodes of a system.
pub type NodeSet = NodeWords<NODE_WORDS>;

/// How many words a set of the groups of a system has: there are at most as many groups as nodes and organisations.
pub const GROUP_WORDS: usize = NODE_WORDS + MOST_ORGS / 64;

/// A set of the groups of a system.
pub type GroupSet = NodeWords<GROUP_WORDS>;

impl<const W: usize> Model for NodeWords<W> {
    ghost use Rattle.fbas_model.specs.Nodes.{Table};
    ghost use Rattle.name_set.specs.Words.{table_of, AreWordsOf};

    ghost Value = { Table };

    ghost view = { λ s. table_of s.n s.words };

    // No bit from n on is set.
    ghost invariant = { λ s. AreWordsOf W s.n s.words };
}

/// How many words have the bits of the numbers below n.
fn words_for(n: u32) -> usize
    ensures room { n ≤ 64 * result }
    ensures needed { 64 * result < n + 64 }
{
    (n as usize).div_ceil(64)
}

impl<const W: usize> NodeWords<W> {
    /// The empty set of numbers below `n`: O(W). Takes no memory.
    pub fn new(n: u32) -> Self
        requires fits { n ≤ 64 * W }
        requires few { W ≤ MOST_WORDS }
        ensures size { length result ≡ n }
        ensures empty { members result ≡ ∅ }
    {
        NodeWords { words: [0; W], n }
    }

    /// Whether the number is in the set: O(1).
    pub fn has(&self, at: u32) -> bool
        requires { at < length self.now }
        ensures { result ≡ members self.now at }
    {
        (self.words[at as usize / 64] >> (at % 64)) & 1 == 1
    }

    /// Adds the number to the set: O(1).
    pub fn put(&mut self, at: u32)
        requires { at < length self.old }
        ensures size { length self.new ≡ length self.old }
        ensures added { members self.new ≡ members self.old ∪ only at }
    {
        let i = at as usize / 64;
        self.words[i] |= 1 << (at % 64);
    }

    /// Takes the number out of the set: O(1).
    pub fn take(&mut self, at: u32)
        requires { at < length self.old }
        ensures size { length self.new ≡ length self.old }
        ensures taken { members self.new ≡ members self.old ∖ only at }
    {
        let i = at as usize / 64;
        self.words[i] &= !(1 << (at % 64));
    }

    /// Whether the sets share a number: O(n / 64).
    pub fn meets(&self, other: &Self) -> bool
        requires { length self.now ≡ length other.now }
        ensures { IsTrue result ↔ Meets (members self.now) (members other.now) }
    {
        for i in 0..words_for(self.n) {
            if self.words[i] & other.words[i] != 0 {
                return true;
            }
        }
        false
    }

    /// Whether each number of this set is in the other: O(n / 64).
    pub fn lies_in(&self, other: &Self) -> bool
        requires { length self.now ≡ length other.now }
        ensures { IsTrue result ↔ members self.now ⊆ members other.now }
    {
        for i in 0..words_for(self.n) {
            if self.words[i] & !other.words[i] != 0 {
                return false;
            }
        }
        true
    }

    /// Whether the set has no numbers: O(n / 64).
    pub fn is_empty(&self) -> bool
        ensures { MatchBool result (members self.now ≡ ∅) (IsInhabited (members self.now)) }
    {
        for i in 0..words_for(self.n) {
            if self.words[i] != 0 {
                return false;
            }
        }
        true
    }

    /// Whether the two sets have the same numbers: O(n / 64).
    pub fn same(&self, other: &Self) -> bool
        requires { length self.now ≡ length other.now }
        ensures { IsTrue result ↔ (self.now ≡ other.now) }
    {
        for i in 0..words_for(self.n) {
            if self.words[i] != other.words[i] {
                return false;
            }
        }
        true
    }

    /// Takes the numbers of the other set out of this one: O(n / 64).
    pub fn minus(&mut self, other: &Self)
        requires { length self.old ≡ length other.now }
        ensures size { length self.new ≡ length self.old }
        ensures left { members self.new ≡ members self.old ∖ members other.now }
    {
        for i in 0..words_for(self.n) {
            self.words[i] &= !other.words[i];
        }
    }

    /// Adds the numbers of the other set to this one: O(n / 64).
    pub fn join(&mut self, other: &Self)
        requires { length self.old ≡ length other.now }
        ensures size { length self.new ≡ length self.old }
        ensures joined { members self.new ≡ members self.old ∪ members other.now }
    {
        for i in 0..words_for(self.n) {
            self.words[i] |= other.words[i];
        }
    }

    /// Keeps only the numbers that the other set has too: O(n / 64).
    pub fn meet(&mut self, other: &Self)
        requires { length self.old ≡ length other.now }
        ensures size { length self.new ≡ length self.old }
        ensures shared { members self.new ≡ members self.old ∩ members other.now }
    {
        for i in 0..words_for(self.n) {
            self.words[i] &= other.words[i];
        }
    }

    /// A set with the same numbers: O(W).
    pub fn copy(&self) -> Self
        ensures { result ≡ self.now }
    {
        NodeWords {
            words: self.words,
            n: self.n,
        }
    }

    /// Becomes the other set: O(W).
    pub fn copy_from(&mut self, other: &Self)
        requires { length self.old ≡ length other.now }
        ensures { self.new ≡ other.now }
    {
        self.words = other.words;
    }

    /// Becomes the set of all numbers below n: O(n / 64).
    pub fn fill(&mut self)
        ensures size { length self.new ≡ length self.old }
        ensures all { members self.new ≡ (λ v. nat_lt v (length self.old)) }
    {
        let n = self.n;
        let whole = n as usize / 64;
        for i in 0..whole {
            self.words[i] = u64::MAX;
        }
        if n % 64 != 0 {
            self.words[whole] = (1 << (n % 64)) - 1;
        }
    }

    /// Becomes the empty set, with the same n: O(W).
    pub fn clear(&mut self)
        ensures size { length self.new ≡ length self.old }
        ensures empty { members self.new ≡ ∅ }
    {
        let none = [0; W];
        self.words = none;
    }

    /// How many numbers the set has: O(n / 64).
    pub fn count(&self) -> u32
        ensures { result ≡ size self.now }
    {
        let mut count = 0;
        for i in 0..words_for(self.n) {
            count += self.words[i].count_ones();
        }
        count
    }

    /// The least number of the set from that of the first bit of a word on: O(1) and the words that are passed over.
    fn least_in(&self, from: usize) -> Option<u32>
        ensures { MatchOption result (HasNoneFrom (members self.now) (64 * from)) (IsLeastFrom (members self.now) (64 * from)) }
    {
        for i in from..words_for(self.n) {
            if self.words[i] != 0 {
                return Some(64 * i as u32 + self.words[i].trailing_zeros());
            }
        }
        None
    }

    /// The least number of the set, or none where it is empty: O(n / 64).
    pub fn least(&self) -> Option<u32>
        ensures { MatchOption result (members self.now ≡ ∅) (IsLeast (members self.now)) }
    {
        self.least_in(0)
    }

    /// The least number of the set that is `at` or more, or none where it has no such: O(1) and the words that are passed
    /// over.
    pub fn least_from(&self, at: u32) -> Option<u32>
        ensures { MatchOption result (HasNoneFrom (members self.now) at) (IsLeastFrom (members self.now) at) }
    {
        if at >= self.n {
            return None;
        }
        let i = at as usize / 64;
        let rest = self.words[i] >> (at % 64);
        if rest != 0 {
            return Some(at + rest.trailing_zeros());
        }
        self.least_in(i + 1)
    }

    /// The first word, or 0 where the set has room for no number.
    fn first_word(&self) -> u64
        ensures { IsRest (members self.now) 0 0 result }
    {
        if self.n == 0 {
            return 0;
        }
        self.words[0]
    }

    /// What is left of a word, or, where that is nothing, the next word that is not 0, with its place.
    fn first_left(&self, at: usize, rest: u64) -> Option<(usize, u64)>
        requires { at ≤ MOST_WORDS }
        ensures { (from : ℕ) → IsRest (members self.now) at from rest → MatchOption result (HasNoneFrom (members self.now) from) (λ p. IsFirst (members self.now) from p.0 p.1) }
    {
        if rest != 0 {
            return Some((at, rest));
        }
        let number = self.least_in(at + 1)?;
        let next = number as usize / 64;
        let word = self.words[next];
        Some((next, word))
    }

    /// The numbers of the set, in order: all of them together O(n / 64) and as many steps as there are.
    pub fn iter(&self) -> Members<'_, W>
        ensures { result ≡ listed_from 0 self.now }
    {
        Members {
            set: self,
            from: 0,
            at: 0,
            rest: self.first_word(),
        }
    }
}

/// The numbers of a set, in order, seen as the list of those that are left.
#[derive(Drop)]
pub struct Members<'a, const W: usize> {
    set: &'a NodeWords<W>,
    /// The numbers below it were given.
    from: u32,
    /// The place of a word, and what is left of it: the bits of the numbers that were not given.
    at: usize,
    rest: u64,
}

impl<'a, const W: usize> Model for Members<'a, W> {
    ghost use Rattle.std.specs.Prelude.{ℕ, ◌≤◌, List, length, drop};
    ghost use Rattle.fbas_model.specs.Nodes.{members, listed_from};
    ghost use Rattle.name_set.specs.Words.{IsRest};

    ghost Value = { List ℕ };

    ghost view = { λ m. listed_from m.from (drop m.from m.set.now) };

    ghost invariant = { λ m. (m.from ≤ length m.set.now) × IsRest (members m.set.now) m.at m.from m.rest };
}

impl<'a, const W: usize> Iterator for Members<'a, W> {
    type Item = u32;

    ghost next_gives = { YieldsFirst (λ rest. rest) };

    ghost remaining = { item_count (λ rest. rest) };

    fn next(&mut self) -> Option<u32> {
        let set = self.set;
        let _ = &set.n;
        let Some((at, rest)) = set.first_left(self.at, self.rest) else {
            return None;
        };
        let bit = rest.trailing_zeros();
        let number = 64 * at as u32 + bit;
        self.at = at;
        // The lowest bit goes: the compiler makes it `rest & (rest - 1)`.
        self.rest = rest & !(1 << bit);
        self.from = number + 1;
        Some(number)
    }
}

/// The same numbers in V words: O(V) and as many steps as there are numbers.
pub fn resized<const W: usize, const V: usize>(set: &NodeWords<W>) -> NodeWords<V>
    requires words { V ≤ MOST_WORDS }
    requires fits { length set.now ≤ 64 * V }
    ensures { result ≡ set.now }
{
    let mut copy = NodeWords::new(set.n);
    for at in set.iter() {
        copy.put(at);
    }
    copy
}

/// Compares sets as the sorted lists of their numbers, where a prefix comes first: O(W).
pub fn cmp_sets<const W: usize>(a: &NodeWords<W>, b: &NodeWords<W>) -> Ordering
    ensures { result ≡ set_cmp a.now b.now }
{
    for i in 0..W {
        let apart = a.words[i] ^ b.words[i];
        if apart != 0 {
            return cmp_from(a, b, 64 * i as u32 + apart.trailing_zeros());
        }
    }
    Ordering::Equal
}

/// Compares sets that have the same numbers below `at`, and of which one has `at` and the other has not.
fn cmp_from<const W: usize>(a: &NodeWords<W>, b: &NodeWords<W>, at: u32) -> Ordering
    requires { PartAt (members a.now) (members b.now) at }
    ensures { result ≡ set_cmp a.now b.now }
{
    match (a.least_from(at), b.least_from(at)) {
        (Some(one), Some(other)) => one.cmp(&other),
        (Some(_), None) => Ordering::Greater,
        (None, Some(_)) => Ordering::Less,
        (None, None) => Ordering::Equal,
    }
}
