//! Additions to the checker, hint by hint.
ghost use Rattle.std.specs.Prelude.{◌≡◌, None};

use crate::shared::{answered, checker, same, streamed};
use lrat_checker::{Checker, Rule};
use std::alloc::Global;
use std::process::Abort;

static CLAUSES: [&[i32]; 3] = [&[1], &[-1, 2], &[-2]];

/// A checker of the clauses 1, -1 2 and -2.
fn started(rt: &impl Abort, alloc: Global) -> Checker
    ensures { result.open_addition ≡ None }
{
    let idle = checker(alloc, &CLAUSES, 2, Rule::Rup).expect(rt, "memory");
    idle.opening()
}

// Additions of the empty lemma. One checker takes them in turn: a fault leaves no literal true, and no id behind, and the
// hints after a conflict are not looked at.
static ADDITIONS: [(u64, &[i64], &str); 7] = [
    (3, &[], "id-order 3 3"),
    (4, &[2, 1], "not-unit 1"),
    (4, &[1, -2], "rat-step 2"),
    (4, &[1, 9], "no-such-clause 9"),
    (4, &[1, 2], "no-conflict"),
    (4, &[1, 2, 3, -9, 40], "Refuted"),
    (4, &[1, 2, 3], "id-order 4 4"),
];

// Fails the test where an addition has another answer.
fn wants_additions(rt: &impl Abort, alloc: Global, checker: &mut Checker)
    requires { checker.old.open_addition ≡ None }
{
    for (id, hints, want) in ADDITIONS.iter() {
        let answer = streamed(checker, *id, &[], hints);
        same(rt, answered(alloc, answer), want);
    }
}

#[test]
fn hints_one_by_one(rt: HostRuntime) {
    let mut checker = started(&rt, rt.alloc());
    wants_additions(&rt, rt.alloc(), &mut checker);
    drop(checker);
}
