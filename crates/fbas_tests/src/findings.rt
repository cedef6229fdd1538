//! What is found in a quorum set.

ghost use Rattle.std.specs.Prelude.{◌<◌, ◌^◌};
ghost use Rattle.fbas_model.specs.QuorumSets.{all_entries};

use crate::shared::{first_set, same, system_of};
use quorum_set::{Finding, QuorumSet};
use std::alloc::{AllocError, Global};

/// Six nodes. The quorum set of a has three inner ones, of which the second has one inside it.
const NESTED: &str =
    r#"[{"publicKey":"a","quorumSet":{"threshold":7,"validators":["b","c","b"],"innerQuorumSets":[{"threshold":1,"validators":["a","b"]},{"threshold":0,"validators":["c","d","d","c"],"innerQuorumSets":[{"threshold":1,"validators":["f","f","f"]}]},{"threshold":1}]}},{"publicKey":"e"}]"#;

/// Finds it all, after one that was found before.
fn find(alloc: Global, quorum_set: &QuorumSet, found: &mut Vec<Finding>) -> Result<(), AllocError>
    requires { all_entries quorum_set.now < 2 ^ 32 }
{
    found.push(Finding::Repeated(vec![in alloc; 4]?, 9))?;
    quorum_set.findings(alloc, found)
}

/// What is found in it, after one that was found before.
fn found(alloc: Global, quorum_set: &QuorumSet) -> Result<String, AllocError>
    requires { all_entries quorum_set.now < 2 ^ 32 }
{
    let mut found = Vec::new(alloc);
    find(alloc, quorum_set, &mut found)?;
    format!(in alloc; "{found:?}")
}

#[test]
fn faults_are_found_from_the_outside_in(rt: HostRuntime) {
    let system = system_of(&rt, rt.alloc(), NESTED);
    let found = found(rt.alloc(), first_set(&rt, &system, 6));
    let want =
        "[Repeated([4], 9), BadThreshold([], 7, 6), Repeated([], 1), BadThreshold([1], 0, 5), Repeated([1], 3), Repeated([1], 2), Repeated([1, 0], 5), BadThreshold([2], 1, 0)]";
    same(&rt, found, want);
    drop(system);
}
