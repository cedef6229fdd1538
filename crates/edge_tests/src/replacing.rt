//! How a certificate takes the place of what was there: what is asked of the file system, and what is done where it fails.

use crate::machine::{Machine, Name, PLAIN, Plan, Step, There};
use crate::shared::same;
use desk_io::{Desk, RealDesk, To};
use std::alloc::{AllocError, Global};

/// How many calls succeed, of one that creates a certificate, one that puts it and two that put a text, until one fails.
fn publish<D: Desk>(desk: &mut D) -> u32 {
    if desk.create("made").is_err() {
        return 0;
    }
    if desk.put(To::Cert, b"fbas-cert 2\n").is_err() {
        return 1;
    }
    if desk.put(To::Out, b"yes\n").is_err() {
        return 2;
    }
    if desk.put(To::Out, b"\n").is_err() {
        return 3;
    }
    4
}

/// What is asked of the file system on the way, where a read gives that many bytes at most.
fn steps(alloc: Global, made: There, part: There, piece: usize) -> Result<String, AllocError> {
    let plan = Plan {
        made,
        part,
        kept: 2,
        piece,
        ..PLAIN
    };
    let machine = Machine::new(alloc, plan);
    let done = publish(&mut RealDesk::new(&machine));
    format!(in alloc; "{done} of {}", machine.told()?)
}

static STEPS: [(There, There, &str); 12] = [
    // Nothing is there; and what a killed run left is taken over.
    (
        There::Missing,
        There::Missing,
        "4 of 13; /dev/null read; made write; see made.part; made.part write create_new; . read; see made.part; see made; rename made.part made; see made.part; out 4; out 1",
    ),
    (
        There::Missing,
        There::Certificate,
        "4 of 15; /dev/null read; made write; see made.part; made.part read; remove made.part; made.part write create_new; . read; see made.part; see made; rename made.part made; see made.part; out 4; out 1",
    ),
    // A certificate is replaced, and so is a link, of which what it leads to isn't looked at.
    (
        There::Certificate,
        There::Missing,
        "4 of 14; /dev/null read; made write; see made.part; made.part write create_new; . read; see made.part; see made; made read; rename made.part made; see made.part; out 4; out 1",
    ),
    (
        There::Link,
        There::Empty,
        "4 of 15; /dev/null read; made write; see made.part; made.part read; remove made.part; made.part write create_new; . read; see made.part; see made; rename made.part made; see made.part; out 4; out 1",
    ),
    // What is no certificate is kept.
    (
        There::Other,
        There::Missing,
        "4 of 17; /dev/null read; made write; see made.part; made.part write create_new; . read; see made.part; see made; made read; link made made~; link made made~2; link made made~3; rename made.part made; see made.part; out 4; out 1",
    ),
    // A device is written itself.
    (
        There::Device,
        There::Missing,
        "4 of 6; /dev/null read; made write; out 4; out 1",
    ),
    // So is a file beside which none can be made, but not where something would be lost.
    (
        There::Missing,
        There::Other,
        "4 of 9; /dev/null read; made write; see made.part; made.part read; made write truncate create; out 4; out 1",
    ),
    (
        There::Missing,
        There::Link,
        "4 of 8; /dev/null read; made write; see made.part; made write truncate create; out 4; out 1",
    ),
    (
        There::Empty,
        There::Device,
        "4 of 9; /dev/null read; made write; see made.part; made read; made write truncate create; out 4; out 1",
    ),
    (
        There::Certificate,
        There::Device,
        "4 of 9; /dev/null read; made write; see made.part; made read; made write truncate create; out 4; out 1",
    ),
    (
        There::Other,
        There::Device,
        "0 of 6; /dev/null read; made write; see made.part; made read",
    ),
    (
        There::Link,
        There::Device,
        "0 of 6; /dev/null read; made write; see made.part; made read",
    ),
];

#[test]
fn a_certificate_takes_the_place_of_what_may_be_lost(rt: HostRuntime) {
    for (made, part, want) in STEPS.iter() {
        same(&rt, steps(rt.alloc(), *made, *part, 64), want);
        // In short reads a certificate is one too.
        same(&rt, steps(rt.alloc(), *made, *part, 7), want);
    }
}

/// How many calls succeed over a file that is no certificate and on what a killed run left, where a step fails once; whether the
/// name is the certificate's then, and whether a new file is left.
fn failing(alloc: Global, step: Step) -> Result<String, AllocError> {
    let plan = Plan {
        made: There::Other,
        part: There::Certificate,
        failing: step,
        times: 1,
        ..PLAIN
    };
    let machine = Machine::new(alloc, plan);
    let done = publish(&mut RealDesk::new(&machine));
    let (is_replaced, has_part) = (machine.is_replaced(), machine.has_part());
    drop(machine);
    format!(in alloc; "{done} {is_replaced} {has_part}")
}

static FAILING: [(Step, &str); 17] = [
    (Step::Nothing, "4 true false"),
    (Step::Open(Name::Another), "4 true false"),
    (Step::Open(Name::Made), "0 false true"),
    (Step::Stat(Name::Made), "0 false true"),
    (Step::See(Name::Part), "0 false true"),
    (Step::Open(Name::Part), "0 false true"),
    (Step::Read(Name::Part), "0 false true"),
    (Step::Remove, "0 false true"),
    (Step::Stat(Name::Part), "0 false true"),
    // Permissions are no condition, nor is a folder that can't be opened, and what can't be read is kept.
    (Step::Mode, "4 true false"),
    (Step::Open(Name::Folder), "4 true false"),
    (Step::Read(Name::Made), "4 true false"),
    (Step::Write(Name::Part), "1 false false"),
    (Step::Sync(Name::Part), "2 false false"),
    (Step::Keep, "2 false false"),
    (Step::Rename, "2 false false"),
    // The certificate has its name, and the folder doesn't say that this is on the disk.
    (Step::Sync(Name::Folder), "2 true false"),
];

#[test]
fn nothing_is_out_and_nothing_replaced_where_a_step_fails(rt: HostRuntime) {
    for (step, want) in FAILING.iter() {
        same(&rt, failing(rt.alloc(), *step), want);
    }
}
