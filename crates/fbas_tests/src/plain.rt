//! The plain programs on worked examples, with the values that Mazières' definitions give by hand, and beside the fast calls.

ghost use Rattle.std.specs.Prelude.{◌≡◌, ◌<◌, ◌≤◌, ◌↔◌, length, All, IfOk, IfSome, IsTrue};
ghost use Rattle.fbas_model.specs.QuorumSets.{IsBelow};
ghost use Rattle.fbas_plain.specs.Plain.{IsWellFormed};

use crate::shared::{A, B, C, D, equal, node_set, system_of};
use fbas_core::System;
use fbas_plain::{
    available, has_choice_within, has_choice_within_either, intersects, is_quorum, meets_quorums,
};
use greatest_quorum::blocks;
use name_set::NodeSet;
use quorum_set::QuorumSet;
use std::alloc::{AllocError, Global};
use std::process::Abort;

/// A threshold and nodes.
type Flat = (u64, &'static [u32]);

/// A quorum set: its threshold and nodes, and inner quorum sets that have nodes alone.
#[derive(Clone, Copy)]
struct Choices(Flat, &'static [Flat]);

const NONE_OF_A: Choices = Choices((0, &[0]), &[]);

const TWO_OF_A: Choices = Choices((2, &[0]), &[]);

const ONE_OF_B: Choices = Choices((1, &[1]), &[]);

const TWO_OF_B_TWICE: Choices = Choices((2, &[1, 1]), &[]);

const TWO_OF_AB: Choices = Choices((2, &[0, 1]), &[]);

const TWO_OF_CD: Choices = Choices((2, &[2, 3]), &[]);

const TWO_OF_ABC: Choices = Choices((2, &[0, 1, 2]), &[]);

const THREE_OF_ABCD: Choices = Choices((3, &[0, 1, 2, 3]), &[]);

const A_AND_ONE_OF_BC: Choices = Choices((2, &[0]), &[(1, &[1, 2])]);

const ONE_OF_NO_CHOICE: Choices = Choices((1, &[]), &[(0, &[0]), (2, &[1])]);

/// The quorum sets of two nodes to four.
type Sets = &'static [Option<Choices>];

const PAIR: Sets = &[Some(TWO_OF_AB); 2];

const TWO_OF_THREE: Sets = &[Some(TWO_OF_ABC); 3];

const THREE_OF_FOUR: Sets = &[Some(THREE_OF_ABCD); 4];

const INNER_SET: Sets = &[Some(A_AND_ONE_OF_BC); 3];

const TWO_PAIRS: Sets = &[
    Some(TWO_OF_AB),
    Some(TWO_OF_AB),
    Some(TWO_OF_CD),
    Some(TWO_OF_CD),
];

const B_TWICE: Sets = &[Some(TWO_OF_B_TWICE), Some(ONE_OF_B)];

const THRESHOLD_OF_NONE: Sets = &[Some(NONE_OF_A), Some(ONE_OF_B)];

const THRESHOLD_ABOVE: Sets = &[Some(TWO_OF_A), Some(ONE_OF_B)];

const UNSET_NEIGHBOUR: Sets = &[Some(ONE_OF_B), None];

/// A system and its faulty nodes, and what is so once these are deleted: the quorums, whether all meet, and whether the rest is a
/// quorum.
type Example<'a> = (&'a [Option<Choices>], u32, &'a [u32], (bool, bool));

fn are_below(nodes: &[u32], n: u32) -> bool
    ensures { IsTrue result ↔ All (λ w. w < n) nodes.now }
{
    nodes.iter().all(|node| *node < n)
}

fn with_inner(
    rt: &impl Abort,
    alloc: Global,
    n: u32,
    threshold: u64,
    nodes: &[u32],
    inner: Vec<QuorumSet>,
) -> Result<QuorumSet, AllocError>
    requires { All (IsBelow n) inner.items }
    ensures { IfOk result (IsBelow n) }
{
    assert!(rt; are_below(nodes, n));
    let validators = Vec::from_slice(alloc, nodes)?;
    Ok(QuorumSet {
        threshold,
        validators,
        inner,
    })
}

fn quorum_set(
    rt: &impl Abort,
    alloc: Global,
    n: u32,
    choices: &Choices,
) -> Result<QuorumSet, AllocError>
    ensures { IfOk result (IsBelow n) }
{
    let mut inner = Vec::new(alloc);
    let Choices((own_threshold, own_nodes), inners) = *choices;
    for (threshold, nodes) in inners {
        inner.push(with_inner(rt, alloc, n, *threshold, nodes, Vec::new(alloc))?)?;
    }
    with_inner(rt, alloc, n, own_threshold, own_nodes, inner)
}

fn node(
    rt: &impl Abort,
    alloc: Global,
    n: u32,
    choices: &Option<Choices>,
) -> Result<Option<QuorumSet>, AllocError>
    ensures { IfOk result (λ set. IfSome set (IsBelow n)) }
{
    match choices {
        Some(choices) => Ok(Some(quorum_set(rt, alloc, n, choices)?)),
        None => Ok(None),
    }
}

fn system(
    rt: &impl Abort,
    alloc: Global,
    nodes: &[Option<Choices>],
) -> Result<Vec<Option<QuorumSet>>, AllocError>
    ensures few { IfOk result (λ sets. length sets.items ≤ 4) }
    ensures nodes { IfOk result (λ sets. length sets.items ≡ length nodes.now) }
    ensures formed { IfOk result (λ sets. IsWellFormed sets.items) }
{
    assert!(rt; nodes.len() <= 4);
    let mut sets = Vec::new(alloc);
    for choices in nodes {
        sets.push(node(rt, alloc, nodes.len() as u32, choices)?)?;
    }
    Ok(sets)
}

static CHOICES: [(Choices, u32, bool); 12] = [
    (NONE_OF_A, A, false),
    (TWO_OF_A, A | B, false),
    (ONE_OF_B, A, false),
    (ONE_OF_B, B, true),
    (TWO_OF_B_TWICE, B, true),
    (TWO_OF_ABC, C, false),
    (TWO_OF_ABC, A | C, true),
    (THREE_OF_ABCD, A | D, false),
    (A_AND_ONE_OF_BC, A | C, true),
    (A_AND_ONE_OF_BC, A | D, false),
    (A_AND_ONE_OF_BC, B | C, false),
    (ONE_OF_NO_CHOICE, A | B, false),
];

/// Whether a choice lies in the set, by trying all of them and by counting.
fn met(
    rt: &impl Abort,
    alloc: Global,
    choices: &Choices,
    u: u32,
) -> Result<(bool, bool), AllocError> {
    let set = quorum_set(rt, alloc, 4, choices)?;
    let u = node_set(4, u);
    Ok((has_choice_within(&set, &u), set.satisfied(&u)))
}

#[test]
fn choices_take_entries_at_different_places(rt: HostRuntime) {
    for (choices, u, want) in CHOICES.iter() {
        let found = met(&rt, rt.alloc(), choices, *u);
        equal(&rt, &found, &Ok((*want, *want)), "choices in a set");
    }
}

/// Whether the quorums are those that are listed, and each set of nodes meets all of them where it should.
fn is_as_listed(sets: &[Option<QuorumSet>], faulty: &NodeSet, quorums: &[u32]) -> bool
    requires few { length sets.now ≤ 4 }
    requires formed { IsWellFormed sets.now }
    requires same_faulty { length faulty.now ≡ length sets.now }
{
    let n = sets.len() as u32;
    for nodes in 0..1 << n {
        let u = node_set(n, nodes);
        if is_quorum(sets, &u, faulty) != quorums.contains(&nodes) {
            return false;
        }
        let meets_all = quorums.iter().all(|other| other & nodes != 0);
        if meets_quorums(sets, &u, faulty) != meets_all {
            return false;
        }
    }
    true
}

// The threshold of 0 is that of a, and so is the one above its entries.
static EXAMPLES: [Example<'static>; 15] = [
    (PAIR, 0, &[A | B], (true, true)),
    (PAIR, A | B, &[], (true, true)),
    (
        TWO_OF_THREE,
        0,
        &[A | B, A | C, B | C, A | B | C],
        (true, true),
    ),
    (TWO_OF_THREE, A, &[B, C, B | C], (false, true)),
    (
        THREE_OF_FOUR,
        0,
        &[A | B | C, A | B | D, A | C | D, B | C | D, A | B | C | D],
        (true, true),
    ),
    (
        THREE_OF_FOUR,
        A,
        &[B | C, B | D, C | D, B | C | D],
        (true, true),
    ),
    (THREE_OF_FOUR, A | B, &[C, D, C | D], (false, false)),
    (TWO_PAIRS, 0, &[A | B, C | D, A | B | C | D], (false, true)),
    (B_TWICE, 0, &[B, A | B], (true, true)),
    (THRESHOLD_OF_NONE, 0, &[B], (true, false)),
    (THRESHOLD_ABOVE, A, &[B], (true, true)),
    (INNER_SET, 0, &[A | B, A | C, A | B | C], (true, true)),
    (INNER_SET, A, &[B, C, B | C], (false, false)),
    (UNSET_NEIGHBOUR, 0, &[], (true, false)),
    (UNSET_NEIGHBOUR, B, &[A], (true, false)),
];

/// Whether the quorums are as listed, all meet, and the rest is a quorum.
fn found(
    rt: &impl Abort,
    alloc: Global,
    example: &Example,
) -> Result<(bool, bool, bool), AllocError> {
    let (sets, faulty, quorums, _) = *example;
    let sets = system(rt, alloc, sets)?;
    let faulty = node_set(sets.len() as u32, faulty);
    Ok((
        is_as_listed(&sets, &faulty, quorums),
        intersects(&sets, &faulty),
        available(&sets, &faulty),
    ))
}

/// Fails the test where something else is found.
fn wants_found(rt: &impl Abort, alloc: Global, at: usize, example: &Example) {
    let found = (at, found(rt, alloc, example));
    let (_, _, _, (all_meet, rest_is_quorum)) = *example;
    let want = (true, all_meet, rest_is_quorum);
    equal(rt, &found, &(at, Ok(want)), "an example");
}

#[test]
fn definitions_say_what_was_meant(rt: HostRuntime) {
    for (at, example) in EXAMPLES.iter().enumerate() {
        wants_found(&rt, rt.alloc(), at, example);
    }
}

/// A quorum set of nodes 0 to 2, with an inner quorum set.
fn nested(threshold: u64) -> Option<Choices> {
    Some(Choices((threshold, &[0, 1]), &[(2, &[1, 2])]))
}

/// The quorum sets of a system of three nodes, which differ in their thresholds.
fn family(
    rt: &impl Abort,
    alloc: Global,
    thresholds: [u64; 3],
) -> Result<Vec<Option<QuorumSet>>, AllocError>
    ensures nodes { IfOk result (λ sets. length sets.items ≡ 3) }
    ensures formed { IfOk result (λ sets. IsWellFormed sets.items) }
{
    let [a, b, c] = thresholds;
    system(rt, alloc, &[nested(a), nested(b), nested(c)])
}

const BEHIND_THRESHOLD: &str =
    r#""validators":["a","b"],"innerQuorumSets":[{"threshold":2,"validators":["b","c"]}]}}"#;

/// The same as a configuration.
fn family_config(alloc: Global, [a, b, c]: [u64; 3]) -> Result<String, AllocError> {
    format!(in alloc;
        "[{{\"publicKey\":\"a\",\"quorumSet\":{{\"threshold\":{a},{BEHIND_THRESHOLD},{{\"publicKey\":\"b\",\"quorumSet\":{{\"threshold\":{b},{BEHIND_THRESHOLD},{{\"publicKey\":\"c\",\"quorumSet\":{{\"threshold\":{c},{BEHIND_THRESHOLD}]"
    )
}

/// Whether the quorum sets are satisfied as choices lie in the two sets.
fn sets_agree(sets: &[Option<QuorumSet>], u: &NodeSet, faulty: &NodeSet) -> bool
    requires formed { IsWellFormed sets.now }
    requires nodes { length sets.now ≡ 3 }
    requires same_n { length u.now ≡ 3 }
    requires same_faulty { length faulty.now ≡ 3 }
{
    for set in sets {
        if let Some(set) = set {
            if set.satisfied_in(u, faulty) != has_choice_within_either(set, u, faulty) {
                return false;
            }
        }
    }
    true
}

fn agree_on(system: &System, sets: &[Option<QuorumSet>], u: &NodeSet, faulty: &NodeSet) -> bool
    requires same_system { length system.now.sets ≡ 3 }
    requires formed { IsWellFormed sets.now }
    requires nodes { length sets.now ≡ 3 }
    requires same_n { length u.now ≡ 3 }
    requires same_faulty { length faulty.now ≡ 3 }
{
    let mut scratch = NodeSet::new(3);
    let meets = meets_quorums(sets, u, faulty);
    blocks(system, u, faulty, &mut scratch) == meets
        && system.is_quorum(u, faulty) == is_quorum(sets, u, faulty)
        && sets_agree(sets, u, faulty)
}

fn agree(system: &System, sets: &[Option<QuorumSet>]) -> bool
    requires same_system { length system.now.sets ≡ 3 }
    requires formed { IsWellFormed sets.now }
    requires nodes { length sets.now ≡ 3 }
{
    for pair in 0..64 {
        let u = node_set(3, pair % 8);
        let faulty = node_set(3, pair / 8);
        if !agree_on(system, sets, &u, &faulty) {
            return false;
        }
    }
    true
}

/// The system with these thresholds.
fn system_of_family(rt: &impl Abort, alloc: Global, thresholds: [u64; 3]) -> System
    ensures { length result.sets ≡ 3 }
{
    let config = family_config(alloc, thresholds).expect(rt, "memory");
    let system = system_of(rt, alloc, &config);
    assert!(rt; system.len() == 3);
    system
}

/// Whether the fast calls and the plain ones agree on it.
fn agree_on_family(
    rt: &impl Abort,
    alloc: Global,
    thresholds: [u64; 3],
) -> Result<bool, AllocError> {
    let sets = family(rt, alloc, thresholds)?;
    let system = system_of_family(rt, alloc, thresholds);
    let agree = agree(&system, &sets);
    drop(system);
    Ok(agree)
}

#[test]
fn fast_calls_agree(rt: HostRuntime) {
    for code in 0..125 {
        let thresholds = [code % 5, code / 5 % 5, code / 25];
        let agree = agree_on_family(&rt, rt.alloc(), thresholds);
        equal(
            &rt,
            &(thresholds, agree),
            &(thresholds, Ok(true)),
            "thresholds",
        );
    }
}
