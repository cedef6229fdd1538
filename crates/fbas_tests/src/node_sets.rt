//! What no clause says: worked rows, sets that end anywhere in a word, and sets of other widths.

ghost use Rattle.std.specs.Prelude.{◌≡◌, ◌*◌, ◌≤◌, ◌<◌, length};

use crate::shared::{equal, names_of, same};
use fbas_model::{MOST_NODES, MOST_ORGS};
use name_set::{GROUP_WORDS, MOST_WORDS, NODE_WORDS, Names, NodeSet, NodeWords, cmp_sets};
use std::alloc::{AllocError, Global};
use std::process::Abort;

/// Changes a set, by another: the steps come in turn.
fn change(other: &mut NodeSet, set: &NodeSet, step: u32)
    requires other { length other.old ≡ 4 }
    requires set { length set.now ≡ 4 }
    ensures { length other.new ≡ 4 }
{
    match step {
        0 => {}
        1 => other.fill(),
        2 => other.minus(set),
        3 => other.take(0),
        4 => other.join(set),
        5 => other.copy_from(set),
        6 => other.take(1),
        7 => other.meet(set),
        _ => other.clear(),
    }
}

/// The nodes of a set, the least and their number, and whether it meets another, is the same, and lies in it.
fn shown(alloc: Global, other: &NodeSet, set: &NodeSet) -> Result<String, AllocError>
    requires other { length other.now ≡ 4 }
    requires set { length set.now ≡ 4 }
{
    let has = [other.has(0), other.has(1), other.has(2), other.has(3)];
    let (least, count) = (other.least(), other.count());
    let (meets, same, lies_in) = (other.meets(set), other.same(set), other.lies_in(set));
    format!(in alloc; "{has:?} {least:?} {count} {meets} {same} {lies_in}")
}

/// The set after a step.
fn changed(
    alloc: Global,
    other: &mut NodeSet,
    set: &NodeSet,
    step: u32,
) -> Result<String, AllocError>
    requires other { length other.old ≡ 4 }
    requires set { length set.now ≡ 4 }
    ensures { length other.new ≡ 4 }
{
    change(other, set, step);
    shown(alloc, other, set)
}

// With the set of 1 and 3.
static STEPS: [&str; 9] = [
    "[false, false, false, false] None 0 false false true",
    "[true, true, true, true] Some(0) 4 true false false",
    "[true, false, true, false] Some(0) 2 false false false",
    "[false, false, true, false] Some(2) 1 false false false",
    "[false, true, true, true] Some(1) 3 true false false",
    "[false, true, false, true] Some(1) 2 true true true",
    "[false, false, false, true] Some(3) 1 true false true",
    "[false, false, false, true] Some(3) 1 true false true",
    "[false, false, false, false] None 0 false false true",
];

#[test]
fn sets_are_plain_sets(rt: HostRuntime) {
    let mut set = NodeSet::new(4);
    set.put(3);
    set.put(1);
    let mut other = NodeSet::new(4);
    let alloc = rt.alloc();
    for (step, want) in STEPS.iter().enumerate() {
        same(&rt, changed(alloc, &mut other, &set, step as u32), want);
    }
}

/// Whether two empty sets are the same, whether the set of 1 and 3 lies in that of 3, and its least nodes from 1, 2 and 4 on.
fn one_and_three(alloc: Global) -> Result<String, AllocError> {
    let mut set = NodeSet::new(4);
    let mut other = NodeSet::new(4);
    let same = set.same(&other);
    set.put(3);
    set.put(1);
    other.put(3);
    let lies_in = set.lies_in(&other);
    let least = [set.least_from(1), set.least_from(2), set.least_from(4)];
    format!(in alloc; "{same} {lies_in} {least:?}")
}

#[test]
fn a_set_has_its_least_nodes_from_a_number_on(rt: HostRuntime) {
    let want = "true false [Some(1), Some(3), None]";
    same(&rt, one_and_three(rt.alloc()), want);
}

/// The multiples of 3 below `n`, in a set of W words.
fn thirds<const W: usize>(n: u32) -> NodeWords<W>
    requires fits { n ≤ 64 * W }
    requires few { W ≤ MOST_WORDS }
    ensures { length result ≡ n }
{
    let mut set = NodeWords::new(n);
    for v in 0..n {
        if v % 3 == 0 {
            set.put(v);
        }
    }
    set
}

/// Whether the members come in order.
fn are_thirds<const W: usize>(set: &NodeWords<W>, n: u32) -> bool {
    let mut next = 0;
    for v in set.iter() {
        if v as u64 != next {
            return false;
        }
        next = v as u64 + 3;
    }
    next >= n as u64
}

/// Whether the set is one of n nodes with a third of all, and comes before all.
fn lies_in_all<const W: usize>(set: &NodeWords<W>, all: &NodeWords<W>, n: u32) -> [bool; 5]
    requires set { length set.now ≡ n }
    requires all { length all.now ≡ n }
{
    [
        set.count() == n.div_ceil(3),
        all.count() == n,
        set.lies_in(all),
        all.least_from(n).is_none(),
        cmp_sets(all, set).is_lt() == (n > 1),
    ]
}

/// Whether the others are the rest of all, make all with the set, and make the set where they are met with it.
fn parts_all<const W: usize>(set: &NodeWords<W>, all: &NodeWords<W>, n: u32) -> [bool; 6]
    requires set { length set.now ≡ n }
    requires all { length all.now ≡ n }
{
    let mut others = all.copy();
    others.minus(set);
    let apart = !others.meets(set);
    let counted = others.count().checked_add(n.div_ceil(3)) == Some(n);
    let within = others.lies_in(set) == others.is_empty();
    others.join(set);
    let (whole, equal) = (others.same(all), cmp_sets(&others, all).is_eq());
    others.meet(set);
    [apart, counted, within, whole, equal, others.same(set)]
}

/// Whether sets of W words are plain sets of numbers below `n`.
fn are_plain<const W: usize>(n: u32) -> (bool, [bool; 5], [bool; 6])
    requires fits { n ≤ 64 * W }
    requires few { W ≤ MOST_WORDS }
{
    let set = thirds::<W>(n);
    let mut all = set.copy();
    all.fill();
    (
        are_thirds(&set, n),
        lies_in_all(&set, &all, n),
        parts_all(&set, &all, n),
    )
}

/// Shows that they are.
fn show<const W: usize>(rt: &impl Abort, n: u32)
    requires fits { n ≤ 64 * W }
    requires few { W ≤ MOST_WORDS }
{
    let found = (n, are_plain::<W>(n));
    let want = (n, (true, [true; 5], [true; 6]));
    equal(rt, &found, &want, "the numbers below");
}

const NODES: u32 = MOST_NODES as u32;

#[test]
fn sets_end_anywhere_in_a_word(rt: HostRuntime) {
    for n in [0, 1, 63, 64, 65, 127, 128, NODES - 1, NODES] {
        show::<NODE_WORDS>(&rt, n);
    }
    show::<1>(&rt, 64);
    show::<2>(&rt, 65);
    show::<3>(&rt, 130);
    show::<GROUP_WORDS>(&rt, NODES + MOST_ORGS as u32);
}

/// Whether the one set comes before the other, both ways.
fn is_before(set: &NodeSet, other: &NodeSet) -> (bool, bool)
    requires { length set.now ≡ length other.now }
{
    (cmp_sets(set, other).is_lt(), cmp_sets(other, set).is_gt())
}

/// Whether each of two sets comes before the other in turn, as nodes are put in.
fn in_turn() -> [(bool, bool); 4] {
    let mut set = NodeSet::new(200);
    let mut other = NodeSet::new(200);
    set.put(3);
    let first = is_before(&other, &set);
    other.put(3);
    other.put(130);
    let second = is_before(&set, &other);
    set.put(131);
    let third = is_before(&other, &set);
    set.put(2);
    [first, second, third, is_before(&set, &other)]
}

#[test]
fn sets_are_ordered_as_lists(rt: HostRuntime) {
    equal(&rt, &in_turn(), &[(true, true); 4], "sets in turn");
}

/// The names in order, and the places of some.
fn placed(alloc: Global, names: &Names) -> Result<String, AllocError>
    requires { length names.now ≡ 4 }
{
    let list = [names.name(0), names.name(1), names.name(2), names.name(3)];
    let places = [
        names.find(b"B"),
        names.find(b"a"),
        names.find(b"ab"),
        names.find(b"b"),
        names.find(b"aa"),
    ];
    format!(in alloc; "{list:?} {places:?}")
}

#[test]
fn names_are_sorted_and_found(rt: HostRuntime) {
    let alloc = rt.alloc();
    let names = names_of(&rt, alloc, &["b", "ab", "b", "a", "B", "ab"], 4);
    let want = "[[66], [97], [97, 98], [98]] [Some(0), Some(1), Some(2), Some(3), None]";
    same(&rt, placed(alloc, &names), want);
}
