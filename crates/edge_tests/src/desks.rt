//! What no clause says: that calls succeed where memory is ample, and what the machine's files do.
ghost use Rattle.std.specs.Prelude.{◌<◌};

use crate::shared::same;
use desk_io::{Call, Desk, MemDesk, RealDesk, To, Which, put_all, read_all};
use std::alloc::{AllocError, Global};
use std::fs;
use std::process::Abort;

/// A desk with one file of ten bytes, that may create another.
fn desk(
    alloc: Global,
    piece: usize,
    capacity: usize,
    failing: Vec<(Call, u64)>,
) -> Result<MemDesk, AllocError>
    requires { 0 < piece }
{
    let mut files = Vec::new(alloc);
    let held = Vec::from_slice(alloc, b"0123456789")?;
    files.push((String::from_str(alloc, "held")?, held))?;
    let mut may_create = Vec::new(alloc);
    may_create.push(String::from_str(alloc, "made")?)?;
    MemDesk::new(alloc, files, may_create, piece, capacity, failing)
}

/// One of which no call is to fail, that takes eight bytes of a text.
fn unfailing(rt: &impl Abort, alloc: Global, piece: usize) -> MemDesk
    requires { 0 < piece }
{
    desk(alloc, piece, 8, Vec::new(alloc)).expect(rt, "memory")
}

/// A piece of the file, and the buffer that it is read to.
fn piece(alloc: Global, desk: &mut MemDesk) -> Result<String, AllocError> {
    let mut buf = [0u8; 8];
    let is_begun = desk.begin(Which::Config, "held").is_ok();
    let moved = desk.next(Which::Config, &mut buf);
    format!(in alloc; "{is_begun} {moved:?} {buf:?}")
}

/// How many bytes of a certificate and of two texts are taken.
fn puts(alloc: Global, desk: &mut MemDesk) -> Result<String, AllocError> {
    let is_made = desk.create("made").is_ok();
    let cert = desk.put(To::Cert, b"certificate");
    let text = desk.put(To::Out, b"yes\n");
    let more = desk.put(To::Out, b"\n");
    format!(in alloc; "{is_made} {cert:?} {text:?} {more:?}")
}

/// What was written.
fn written(alloc: Global, desk: &MemDesk) -> Result<String, AllocError> {
    let (made, other) = (desk.file("made"), desk.file("other"));
    format!(in alloc; "{:?} {made:?} {other:?}", desk.out())
}

/// Fails the test where a call has another answer. The desk is borrowed, so that what is proved of the comparisons does not carry it.
fn wants_answers(rt: &impl Abort, alloc: Global, desk: &mut MemDesk) {
    let want = "true Ok(4) [48, 49, 50, 51, 0, 0, 0, 0]";
    same(rt, piece(alloc, desk), want);
    same(rt, puts(alloc, desk), "true Ok(4) Ok(4) Err(WriteFailed)");
    let want = "[121, 101, 115, 10] Some([99, 101, 114, 116]) None";
    same(rt, written(alloc, desk), want);
}

#[test]
fn memory_answers_each_call(rt: HostRuntime) {
    let mut desk = unfailing(&rt, rt.alloc(), 4);
    wants_answers(&rt, rt.alloc(), &mut desk);
    drop(desk);
}

/// Makes a call of that kind, which fails only where it's told to.
fn fails(desk: &mut MemDesk, call: Call) -> bool {
    match call {
        Call::Begin(which) => desk.begin(which, "held").is_err(),
        Call::Next(which) => desk.next(which, &mut [0; 1]).is_err(),
        Call::Create => desk.create("made").is_err(),
        Call::Put(to) => desk.put(to, b"x").is_err(),
    }
}

/// A desk at which the second call of that kind is to fail.
fn failing(alloc: Global, call: Call) -> Result<MemDesk, AllocError> {
    let mut failing = Vec::new(alloc);
    failing.push((call, 2))?;
    desk(alloc, 1, 100, failing)
}

/// Whether the first three calls of that kind fail.
fn three_calls(alloc: Global, call: Call) -> Result<String, AllocError> {
    let mut desk = failing(alloc, call)?;
    if call == Call::Put(To::Cert) {
        let _made = desk.create("made");
    }
    let first = fails(&mut desk, call);
    let second = fails(&mut desk, call);
    let third = fails(&mut desk, call);
    drop(desk);
    format!(in alloc; "{call:?} {first} {second} {third}")
}

/// Fails the test unless the second call of that kind fails, and neither the first nor the third does.
fn wants_second_fails(rt: &impl Abort, alloc: Global, call: Call) {
    let want = format!(in alloc; "{call:?} false true false").expect(rt, "memory");
    same(rt, three_calls(alloc, call), &want);
}

#[test]
fn the_listed_call_fails(rt: HostRuntime) {
    for which in [Which::Config, Which::Orgs, Which::Script, Which::Cert] {
        wants_second_fails(&rt, rt.alloc(), Call::Begin(which));
        wants_second_fails(&rt, rt.alloc(), Call::Next(which));
    }
    for call in [Call::Create, Call::Put(To::Out), Call::Put(To::Cert)] {
        wants_second_fails(&rt, rt.alloc(), call);
    }
}

/// The file, read in such pieces, or why it is not read.
fn whole(alloc: Global, piece: usize, limit: u64) -> Result<String, AllocError>
    requires { 0 < piece }
{
    let mut desk = desk(alloc, piece, 0, Vec::new(alloc))?;
    let is_begun = desk.begin(Which::Orgs, "held").is_ok();
    let read = read_all(alloc, &mut desk, Which::Orgs, limit);
    drop(desk);
    format!(in alloc; "{is_begun} {read:?}")
}

#[test]
fn a_file_is_read_whole_or_too_long(rt: HostRuntime) {
    let digits = "true Ok([48, 49, 50, 51, 52, 53, 54, 55, 56, 57])";
    for (piece, limit, want) in [
        (1, 10, digits),
        (7, 10, digits),
        (1, 9, "true Err(Longer)"),
        (20, 9, "true Err(Longer)"),
    ] {
        same(&rt, whole(rt.alloc(), piece, limit), want);
    }
}

/// Whether a text is put whole, and what was put then.
fn put(alloc: Global, desk: &mut MemDesk, text: &[u8]) -> Result<String, AllocError> {
    let is_put = put_all(desk, To::Out, text).is_ok();
    format!(in alloc; "{is_put} {:?}", desk.out())
}

fn wants_put(rt: &impl Abort, alloc: Global, desk: &mut MemDesk) {
    let want = "false [48, 49, 50, 51, 52, 53]";
    same(rt, put(alloc, desk, b"0123456789"), want);
    let want = "true [48, 49, 50, 51, 52, 53, 54, 55]";
    same(rt, put(alloc, desk, b"67"), want);
}

#[test]
fn a_text_stops_at_the_capacity(rt: HostRuntime) {
    let mut desk = unfailing(&rt, rt.alloc(), 3);
    wants_put(&rt, rt.alloc(), &mut desk);
    drop(desk);
}

/// Whether a file is written before it is created, whether it is created and then written, and a text put.
fn write<D: Desk>(alloc: Global, desk: &mut D) -> Result<String, AllocError> {
    let is_early = desk.put(To::Cert, b"0123").is_ok();
    let is_made = desk.create("desk_io_written").is_ok();
    let is_written = put_all(desk, To::Cert, b"0123").is_ok();
    let is_put = put_all(desk, To::Out, b"written\n").is_ok();
    format!(in alloc; "{is_early} {is_made} {is_written} {is_put}")
}

/// Whether the file is begun, and its bytes.
fn read_back<D: Desk>(alloc: Global, desk: &mut D) -> Result<String, AllocError> {
    let is_begun = desk.begin(Which::Config, "desk_io_written").is_ok();
    let read = read_all(alloc, desk, Which::Config, 4);
    format!(in alloc; "{is_begun} {read:?}")
}

/// Whether the file is begun, and what comes next.
fn read_next<D: Desk>(alloc: Global, desk: &mut D) -> Result<String, AllocError> {
    let is_begun = desk.begin(Which::Config, "desk_io_written").is_ok();
    let next = desk.next(Which::Config, &mut [0; 1]);
    format!(in alloc; "{is_begun} {next:?}")
}

#[test]
fn the_machine_writes_and_reads_back(rt: HostRuntime) {
    let alloc = rt.alloc();
    let mut desk = RealDesk::new(&rt);
    same(&rt, write(alloc, &mut desk), "false true true true");
    let want = "true Ok([48, 49, 50, 51])";
    same(&rt, read_back(alloc, &mut desk), want);
    assert!(rt; fs::remove_file(&rt, "desk_io_written").is_ok());
    same(&rt, read_next(alloc, &mut desk), "false Ok(0)");
}
