//! Quorum sets, whose choices are counted by places.

ghost use Rattle.fbas_model.specs.QuorumSets.{IsBelow};

use crate::shared::{A, B, C, D, equal, first_set, node_set, system_of};
use name_set::NodeSet;
use quorum_set::QuorumSet;
use std::process::Abort;

/// Four nodes. That of a: three of node a, of node b twice, and of three inner quorum sets.
const WORKED: &str =
    r#"[{"publicKey":"a","quorumSet":{"threshold":3,"validators":["a","b","b"],"innerQuorumSets":[{"threshold":1,"validators":["c","d"]},{"threshold":0,"validators":["a"]},{"threshold":3,"validators":["a","b"]}]}}]"#;

/// Whether it is satisfied in the two sets, in their union, and where the others are avoided.
fn met(quorum_set: &QuorumSet, part: u32, rest: u32) -> (bool, bool, bool)
    requires { IsBelow 4 quorum_set.now }
{
    let part = node_set(4, part);
    let rest = node_set(4, rest);
    let mut others = node_set(4, A | B | C | D);
    others.minus(&part);
    others.minus(&rest);
    let mut both = node_set(4, A | B | C | D);
    both.minus(&others);
    (
        quorum_set.satisfied_in(&part, &rest),
        quorum_set.satisfied(&both),
        quorum_set.avoids(&others),
    )
}

/// How many nodes it mentions.
fn mentioned(quorum_set: &QuorumSet) -> u32
    requires { IsBelow 4 quorum_set.now }
{
    let mut mentioned = NodeSet::new(4);
    quorum_set.mentions(&mut mentioned);
    mentioned.count()
}

static PARTS: [(u32, u32, bool); 6] = [
    (0, 0, false),
    (B, B, false),
    (A, B, true),
    (B, C, true),
    (A | C, D, false),
    (A | B | C | D, 0, true),
];

/// Fails the test where something else is found. The quorum set is borrowed, so that what is proved of the loop does not carry it.
fn wants_met(rt: &impl Abort, quorum_set: &QuorumSet)
    requires { IsBelow 4 quorum_set.now }
{
    for (part, rest, want) in PARTS.iter() {
        let found = met(quorum_set, *part, *rest);
        equal(rt, &found, &(*want, *want, *want), "a part and the rest");
    }
    equal(rt, &mentioned(quorum_set), &4, "the nodes mentioned");
}

#[test]
fn choices_are_counted_by_places(rt: HostRuntime) {
    let system = system_of(&rt, rt.alloc(), WORKED);
    wants_met(&rt, first_set(&rt, &system, 4));
    drop(system);
}
