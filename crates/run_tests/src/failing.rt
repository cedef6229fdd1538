//! Each call of the desk fails once, in whole runs: what stands then. The desk moves 8 bytes at once.
use crate::certificates::PAIR_OF_THREE;
use crate::desks::{CHECK_BESIDE, Files, Left, run_over, same, wants};
use crate::systems::{ORG, REPEATED, THREE_OF_FOUR, TRIAL_OF_ONE, TWO_OF_THREE};
use command_run::Status;
use desk_io::{Call, To, Which};
use std::alloc::{AllocError, Global};
use std::process::Abort;

/// How many bytes the desk moves at once.
const PIECE: usize = 8;

/// More calls of a kind than a run makes.
const MANY: u64 = 100_000;

/// A run over a configuration, organisations, a script and what stands in the file `cert`.
#[derive(Clone, Copy)]
struct Run {
    line: &'static str,
    /// A trial reads none: its certificate is checked with this one.
    config: &'static str,
    cert: &'static str,
    /// What is read.
    reads: &'static [Which],
    /// How `check` ends over the certificate that is written, and what it says.
    written: Option<(Status, &'static str)>,
}

static RUNS: [Run; 18] = [
    Run {
        line: "intersect config cert",
        config: TWO_OF_THREE,
        cert: "old",
        reads: &[Which::Config],
        written: Some((Status::Yes, "accepted refutation\nfrom\nfaulty\n")),
    },
    Run {
        line: "blocking config cert",
        config: TWO_OF_THREE,
        cert: "old",
        reads: &[Which::Config],
        written: Some((
            Status::Yes,
            "accepted blocking 3\nfrom\nfaulty\nset a b\nset a c\nset b c\n",
        )),
    },
    Run {
        line: "dset config cert --set a",
        config: THREE_OF_FOUR,
        cert: "old",
        reads: &[Which::Config],
        written: Some((Status::Yes, "accepted refutation\nfrom\nfaulty a\n")),
    },
    Run {
        line: "check config cert",
        config: TWO_OF_THREE,
        cert: PAIR_OF_THREE,
        reads: &[Which::Config, Which::Cert],
        written: None,
    },
    Run {
        line: "intersect config cert --faulty a",
        config: TWO_OF_THREE,
        cert: "old",
        reads: &[Which::Config],
        written: Some((Status::Yes, "accepted pair\nfrom\nfaulty a\n")),
    },
    Run {
        line: "intersect config cert --budget 0",
        config: TWO_OF_THREE,
        cert: "old",
        reads: &[Which::Config],
        written: Some((Status::Unknown, "accepted partial 0\nfrom\nfaulty\n")),
    },
    Run {
        line: "intersect config cert --orgs orgs --faulty-orgs A",
        config: TWO_OF_THREE,
        cert: "old",
        reads: &[Which::Config, Which::Orgs],
        written: Some((Status::Yes, "accepted pair\nfrom\nfaulty a\n")),
    },
    Run {
        line: "blocking config cert --budget 3",
        config: TWO_OF_THREE,
        cert: "old",
        reads: &[Which::Config],
        written: Some((
            Status::Unknown,
            "accepted partial-blocking 3\nfrom\nfaulty\n",
        )),
    },
    Run {
        line: "quorums config cert",
        config: TWO_OF_THREE,
        cert: "old",
        reads: &[Which::Config],
        written: Some((
            Status::Yes,
            "accepted quorums 3\nfrom\nfaulty\nset a b\nset a c\nset b c\n",
        )),
    },
    Run {
        line: "quorums config cert --budget 3",
        config: TWO_OF_THREE,
        cert: "old",
        reads: &[Which::Config],
        written: Some((
            Status::Unknown,
            "accepted partial-quorums 3\nfrom\nfaulty\n",
        )),
    },
    Run {
        line: "least config cert",
        config: REPEATED,
        cert: "old",
        reads: &[Which::Config],
        written: Some((Status::Yes, "accepted least 1\nfrom\nfaulty\nset b\n")),
    },
    Run {
        line: "least config cert --budget 3",
        config: TWO_OF_THREE,
        cert: "old",
        reads: &[Which::Config],
        written: Some((Status::Unknown, "accepted partial-least 3\nfrom\nfaulty\n")),
    },
    Run {
        line: "org-blocking config cert --orgs orgs",
        config: TWO_OF_THREE,
        cert: "old",
        reads: &[Which::Config, Which::Orgs],
        written: Some((
            Status::Yes,
            "accepted org-blocking 3\nfrom\nfaulty\nset node:b node:c\nset node:b org:A\nset node:c org:A\n",
        )),
    },
    Run {
        line: "org-blocking config cert --orgs orgs --budget 3",
        config: TWO_OF_THREE,
        cert: "old",
        reads: &[Which::Config, Which::Orgs],
        written: Some((
            Status::Unknown,
            "accepted partial-org-blocking 3\nfrom\nfaulty\n",
        )),
    },
    Run {
        line: "check config cert --orgs orgs",
        config: TWO_OF_THREE,
        cert: PAIR_OF_THREE,
        reads: &[Which::Config, Which::Orgs, Which::Cert],
        written: None,
    },
    Run {
        line: "splits config cert --set a",
        config: TWO_OF_THREE,
        cert: "old",
        reads: &[Which::Config],
        written: Some((Status::Yes, "accepted pair\nfrom\nfaulty a\n")),
    },
    Run {
        line: "whatif config script --set c",
        config: TWO_OF_THREE,
        cert: "old",
        reads: &[Which::Config, Which::Script],
        written: None,
    },
    Run {
        line: "trial 1 cert",
        config: TRIAL_OF_ONE,
        cert: "old",
        reads: &[],
        written: Some((Status::Yes, "accepted refutation\nfrom\nfaulty\n")),
    },
];

/// Each kind of call, of each file.
static CALLS: [Call; 11] = [
    Call::Begin(Which::Config),
    Call::Next(Which::Config),
    Call::Begin(Which::Orgs),
    Call::Next(Which::Orgs),
    Call::Begin(Which::Script),
    Call::Next(Which::Script),
    Call::Begin(Which::Cert),
    Call::Next(Which::Cert),
    Call::Create,
    Call::Put(To::Cert),
    Call::Put(To::Out),
];

// What a run leaves where nothing fails.
fn leaves(alloc: Global, line: &str, held: &Files) -> Result<Left, AllocError> {
    run_over(alloc, line, held, PIECE, Vec::new(alloc))
}

// What a run leaves where this call of its kind fails, counted from 1.
fn leaves_failing(
    alloc: Global,
    line: &str,
    held: &Files,
    call: Call,
    number: u64,
) -> Result<Left, AllocError> {
    let mut failing = Vec::new(alloc);
    failing.push((call, number))?;
    run_over(alloc, line, held, PIECE, failing)
}

fn is_same(left: &Left, whole: &Left) -> bool {
    left.status == whole.status
        && left.out.as_slice() == whole.out.as_slice()
        && left.cert.as_slice() == whole.cert.as_slice()
}

fn is_proper_prefix(bytes: &[u8], whole: &[u8]) -> bool {
    bytes.len() < whole.len() && whole.starts_with(bytes)
}

fn line_feeds(bytes: &[u8]) -> u64 {
    let mut count = 0u64;
    for byte in bytes {
        if *byte == b'\n' {
            count = count.saturating_add(1);
        }
    }
    count
}

// Whether `check` says of a certificate that it ends within the line behind its last line feed.
fn is_truncated(alloc: Global, held: &Files, cert: &[u8]) -> Result<bool, AllocError> {
    let line = line_feeds(cert).saturating_add(1);
    let text = format!(in alloc; "refused truncated {line}\n")?;
    let said = leaves(alloc, CHECK_BESIDE, &held.with(cert))?;
    Ok(said.status == Status::CertRefused && said.out.as_slice() == text.as_bytes())
}

// Whether nothing is out, and the file `cert` is as it was.
fn is_untouched(held: &Files, left: &Left) -> bool {
    left.out.is_empty() && left.cert.as_slice() == held.cert
}

// Whether nothing is out, and a proper prefix of the certificate is in its file, which `check` refuses.
fn is_cut_in_cert(
    alloc: Global,
    held: &Files,
    whole: &Left,
    left: &Left,
) -> Result<bool, AllocError> {
    let is_front = left.out.is_empty() && is_proper_prefix(&left.cert, &whole.cert);
    Ok(is_front && is_truncated(alloc, held, &left.cert)?)
}

// Whether a proper prefix of the text is out, and the certificate is whole.
fn is_cut_in_text(whole: &Left, left: &Left) -> bool {
    is_proper_prefix(&left.out, &whole.out) && left.cert.as_slice() == whole.cert.as_slice()
}

// Whether what is left after a call of this kind failed is what has to stand then; `whole` is what is left where none fails.
fn stands(
    alloc: Global,
    held: &Files,
    whole: &Left,
    call: Call,
    left: &Left,
) -> Result<bool, AllocError> {
    match call {
        Call::Begin(_) | Call::Next(_) => {
            Ok(left.status == Status::ReadFault && is_untouched(held, left))
        }
        Call::Create => Ok(left.status == Status::WriteFault && is_untouched(held, left)),
        Call::Put(To::Cert) => Ok(
            left.status == Status::WriteFault && is_cut_in_cert(alloc, held, whole, left)?,
        ),
        Call::Put(To::Out) => Ok(left.status == Status::WriteFault && is_cut_in_text(whole, left)),
    }
}

// How a run ends in which a call fails.
enum Ending {
    /// As where none fails: it makes fewer calls of this kind.
    Whole,
    /// With what has to stand then.
    Stands,
    Other,
}

fn ending_of(
    alloc: Global,
    held: &Files,
    whole: &Left,
    call: Call,
    left: &Left,
) -> Result<Ending, AllocError> {
    if is_same(left, whole) {
        return Ok(Ending::Whole);
    }
    match stands(alloc, held, whole, call, left)? {
        true => Ok(Ending::Stands),
        false => Ok(Ending::Other),
    }
}

// How a run ends in which this call fails.
fn ends_failing(
    alloc: Global,
    line: &str,
    held: &Files,
    whole: &Left,
    call: Call,
    number: u64,
) -> Result<Ending, AllocError> {
    let left = leaves_failing(alloc, line, held, call, number)?;
    ending_of(alloc, held, whole, call, &left)
}

// What is said of so many calls of a kind.
fn counted(alloc: Global, line: &str, call: Call, count: u64) -> Result<String, AllocError> {
    format!(in alloc; "{line}: {count} of {call:?}")
}

// How many calls of this kind a run makes. Each of them fails once, and what stands then is what has to.
fn calls_of(
    alloc: Global,
    line: &str,
    held: &Files,
    whole: &Left,
    call: Call,
) -> Result<String, AllocError> {
    for number in 0..MANY {
        match ends_failing(alloc, line, held, whole, call, number + 1)? {
            Ending::Whole => return counted(alloc, line, call, number),
            Ending::Stands => {}
            Ending::Other => {
                return format!(in alloc; "{line}: another end after {number} of {call:?}");
            }
        }
    }
    counted(alloc, line, call, MANY)
}

// In how many calls so many bytes move.
fn pieces(bytes: &[u8]) -> u64 {
    bytes.len().div_ceil(PIECE) as u64
}

// In how many calls a file is read, the one that finds its end among them.
fn reads(bytes: &[u8]) -> u64 {
    pieces(bytes).saturating_add(1)
}

fn file<'a>(held: &Files<'a>, which: Which) -> &'a [u8] {
    match which {
        Which::Config => held.config,
        Which::Orgs => held.orgs,
        Which::Script => held.script,
        Which::Cert => held.cert,
    }
}

// How many calls of this kind the run makes where none fails.
fn count_of(run: &Run, held: &Files, whole: &Left, call: Call) -> u64 {
    match call {
        Call::Begin(which) if run.reads.contains(&which) => 1,
        Call::Next(which) if run.reads.contains(&which) => reads(file(held, which)),
        Call::Begin(_) | Call::Next(_) => 0,
        Call::Create => u64::from(run.written.is_some()),
        Call::Put(To::Cert) if run.written.is_some() => pieces(&whole.cert),
        Call::Put(To::Cert) => 0,
        Call::Put(To::Out) => pieces(&whole.out),
    }
}

// Each call of the run fails once: `whole` is what is left where none fails.
fn wants_calls(rt: &impl Abort, alloc: Global, run: &Run, held: &Files, whole: &Left) {
    for call in CALLS.iter() {
        let want = counted(alloc, run.line, *call, count_of(run, held, whole, *call));
        same(rt, calls_of(alloc, run.line, held, whole, *call), want);
    }
}

// The same of a run whose certificate, if it writes one, is accepted.
fn wants_run(rt: &impl Abort, alloc: Global, run: &Run) {
    let held = Files {
        config: run.config.as_bytes(),
        cert: run.cert.as_bytes(),
        orgs: ORG.as_bytes(),
        script: b"threshold a . 3\nretire c\n",
    };
    let whole = leaves(alloc, run.line, &held).expect(rt, "memory");
    if let Some((status, accepted)) = run.written {
        let written = held.with(&whole.cert);
        wants(rt, alloc, CHECK_BESIDE, &written, status, accepted);
    }
    wants_calls(rt, alloc, run, &held, &whole);
}

#[test]
fn each_call_of_a_run_fails_once(rt: HostRuntime) {
    for run in RUNS.iter() {
        wants_run(&rt, rt.alloc(), run);
    }
}
