//! Openings: which file is opened, and, where that fails, how often it is tried again.

use crate::machine::{Machine, Name, PLAIN, Plan, Step, There};
use crate::shared::same;
use desk_io::{Desk, RealDesk, Which};
use std::alloc::{AllocError, Global};
use std::io::ErrorKind;

/// A device whose opening fails so often.
fn failing(alloc: Global, kind: ErrorKind, times: u32) -> Machine {
    let plan = Plan {
        made: There::Device,
        failing: Step::Open(Name::Made),
        kind,
        times,
        ..PLAIN
    };
    Machine::new(alloc, plan)
}

/// How it's begun.
fn begun(alloc: Global, kind: ErrorKind, times: u32) -> Result<String, AllocError> {
    let machine = failing(alloc, kind, times);
    let is_begun = RealDesk::new(&machine).begin(Which::Config, "made").is_ok();
    format!(in alloc; "{is_begun} {}", machine.told()?)
}

/// How it's made the certificate's file.
fn created(alloc: Global, kind: ErrorKind, times: u32) -> Result<String, AllocError> {
    let machine = failing(alloc, kind, times);
    let is_created = RealDesk::new(&machine).create("made").is_ok();
    format!(in alloc; "{is_created} {}", machine.told()?)
}

// The first three calls open /dev/null.
static OPENINGS: [(ErrorKind, u32, &str, &str); 4] = [
    (
        ErrorKind::Interrupted,
        0,
        "true 4; /dev/null read; made read",
        "true 4; /dev/null read; made write",
    ),
    (
        ErrorKind::Interrupted,
        999,
        "true 1003; /dev/null read; made read",
        "true 1003; /dev/null read; made write",
    ),
    (
        ErrorKind::Interrupted,
        1_000,
        "false 1003; /dev/null read; made read",
        "false 1003; /dev/null read; made write",
    ),
    (
        ErrorKind::PermissionDenied,
        1,
        "false 4; /dev/null read; made read",
        "false 4; /dev/null read; made write",
    ),
];

#[test]
fn an_interrupted_opening_is_tried_again_and_any_other_error_fails_at_once(rt: HostRuntime) {
    for (kind, times, want_begun, want_created) in OPENINGS.iter() {
        same(&rt, begun(rt.alloc(), *kind, *times), want_begun);
        same(&rt, created(rt.alloc(), *kind, *times), want_created);
    }
}

/// What is asked of the file system where a file is begun.
fn opened(alloc: Global, which: Which, name: &str) -> Result<String, AllocError> {
    let machine = Machine::new(alloc, PLAIN);
    let is_begun = RealDesk::new(&machine).begin(which, name).is_ok();
    format!(in alloc; "{is_begun} {}", machine.told()?)
}

static NAMES: [(Which, &str, &str); 5] = [
    (Which::Config, "nodes", "true 4; /dev/null read; nodes read"),
    (Which::Orgs, "orgs", "true 4; /dev/null read; orgs read"),
    (Which::Script, "edits", "true 4; /dev/null read; edits read"),
    (Which::Cert, "cert", "true 4; /dev/null read; cert read"),
    (Which::Script, "made", "false 4; /dev/null read; made read"),
];

#[test]
fn each_file_is_opened_by_the_name_that_is_given(rt: HostRuntime) {
    for (which, name, want) in NAMES.iter() {
        same(&rt, opened(rt.alloc(), *which, name), want);
    }
}
