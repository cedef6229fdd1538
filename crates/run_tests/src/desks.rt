//! Desks in memory, and how a command line ends on them.
//!
//! What is proved of a function grows with its ways out times its values that are to be dropped. So the steps of a test stand in
//! functions of their own that return a text, and a test has no `?`.
ghost use Rattle.std.specs.Prelude.{◌<◌};

use command_run::{Status, run};
use desk_io::{Call, MemDesk};
use std::alloc::{AllocError, Global};
use std::process::Abort;
use std::str::from_utf8;

/// The files `config`, `cert`, `orgs` and `script`.
#[derive(Clone, Copy)]
pub struct Files<'a> {
    pub config: &'a [u8],
    pub cert: &'a [u8],
    pub orgs: &'a [u8],
    pub script: &'a [u8],
}

impl<'a> Files<'a> {
    /// A configuration alone: nothing is in the other files.
    pub fn of(config: &'a [u8]) -> Files<'a> {
        Files {
            config,
            cert: b"",
            orgs: b"",
            script: b"",
        }
    }

    /// A configuration and a certificate.
    pub fn with_cert(config: &'a [u8], cert: &'a [u8]) -> Files<'a> {
        Files {
            config,
            cert,
            orgs: b"",
            script: b"",
        }
    }

    /// The same with another certificate.
    pub fn with(&self, cert: &'a [u8]) -> Files<'a> {
        Files {
            config: self.config,
            cert,
            orgs: self.orgs,
            script: self.script,
        }
    }
}

/// What a run leaves: its status, what is out, and what the file `cert` holds.
#[derive(Drop)]
pub struct Left {
    pub status: Status,
    pub out: Vec<u8>,
    pub cert: Vec<u8>,
}

fn push_file(
    alloc: Global,
    files: &mut Vec<(String, Vec<u8>)>,
    name: &str,
    bytes: &[u8],
) -> Result<(), AllocError> {
    let name = String::from_str(alloc, name)?;
    files.push((name, Vec::from_slice(alloc, bytes)?))?;
    Ok(())
}

/// How many bytes may be put in a run: more than the longest text of a test.
const ROOM: usize = 100_000;

// The four files.
fn files_of(alloc: Global, held: &Files) -> Result<Vec<(String, Vec<u8>)>, AllocError> {
    let mut files = Vec::new(alloc);
    push_file(alloc, &mut files, "config", held.config)?;
    push_file(alloc, &mut files, "cert", held.cert)?;
    push_file(alloc, &mut files, "orgs", held.orgs)?;
    push_file(alloc, &mut files, "script", held.script)?;
    Ok(files)
}

fn push_word(alloc: Global, words: &mut Vec<String>, word: &str) -> Result<(), AllocError> {
    words.push(String::from_str(alloc, word)?)?;
    Ok(())
}

// A desk with the four files, which may create no other, moves so many bytes at once and fails these calls.
fn desk(
    alloc: Global,
    held: &Files,
    piece: usize,
    failing: Vec<(Call, u64)>,
) -> Result<MemDesk, AllocError>
    requires { 0 < piece }
{
    let files = files_of(alloc, held)?;
    MemDesk::new(alloc, files, Vec::new(alloc), piece, ROOM, failing)
}

// The words of a line behind the program's name.
fn words(alloc: Global, line: &str) -> Result<Vec<String>, AllocError> {
    let mut words = Vec::new(alloc);
    push_word(alloc, &mut words, "quorum_cli")?;
    for word in line.split(' ') {
        if !word.is_empty() {
            push_word(alloc, &mut words, word)?;
        }
    }
    Ok(words)
}

// What is left on the desk of a run that ended so.
fn left_on(alloc: Global, desk: &MemDesk, status: Status) -> Result<Left, AllocError> {
    let out = Vec::from_slice(alloc, desk.out())?;
    let cert = Vec::from_slice(alloc, desk.file("cert").unwrap_or(b""))?;
    Ok(Left { status, out, cert })
}

// It stands apart so that its contract is not carried into what is proved of its caller.
fn status_of(alloc: Global, words: &[String], desk: &mut MemDesk) -> Status {
    run(alloc, words, desk)
}

/// What the words leave on a desk that moves so many bytes at once and fails these calls.
pub fn run_words(
    alloc: Global,
    words: &[String],
    held: &Files,
    piece: usize,
    failing: Vec<(Call, u64)>,
) -> Result<Left, AllocError>
    requires { 0 < piece }
{
    let mut desk = desk(alloc, held, piece, failing)?;
    let status = status_of(alloc, words, &mut desk);
    left_on(alloc, &desk, status)
}

/// The same of the words of a line behind the program's name.
pub fn run_over(
    alloc: Global,
    line: &str,
    held: &Files,
    piece: usize,
    failing: Vec<(Call, u64)>,
) -> Result<Left, AllocError>
    requires { 0 < piece }
{
    run_words(alloc, &words(alloc, line)?, held, piece, failing)
}

/// What is said of a command line that ended so, with these bytes out.
pub fn said(alloc: Global, line: &str, status: Status, out: &[u8]) -> Result<String, AllocError> {
    let text = from_utf8(out).unwrap_or("no text");
    format!(in alloc; "{line}: {status:?}\n{text}")
}

/// What is said of the command line over the files, on a desk that moves so many bytes at once.
pub fn told(alloc: Global, line: &str, held: &Files, piece: usize) -> Result<String, AllocError>
    requires { 0 < piece }
{
    let left = run_over(alloc, line, held, piece, Vec::new(alloc))?;
    said(alloc, line, left.status, &left.out)
}

fn equal(rt: &impl Abort, found: &str, want: &str) {
    assert_eq!(rt; found, want);
}

/// Fails the test where the texts differ, or memory is wanting.
pub fn same(rt: &impl Abort, found: Result<String, AllocError>, want: Result<String, AllocError>) {
    let found = found.expect(rt, "memory");
    let want = want.expect(rt, "memory");
    equal(rt, &found, &want);
}

/// Fails unless the command line ends with this status and this text, in pieces of 7 bytes.
pub fn wants(rt: &impl Abort, alloc: Global, line: &str, held: &Files, status: Status, text: &str) {
    same(
        rt,
        told(alloc, line, held, 7),
        said(alloc, line, status, text.as_bytes()),
    );
}

/// The line that checks the certificate.
pub const CHECK: &str = "check config cert";

/// The line that checks the certificate beside the organisations.
pub const CHECK_BESIDE: &str = "check config cert --orgs orgs";
