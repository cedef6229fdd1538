//! The same script of calls on a desk in memory and on the machine's: what is read is the same, byte for byte.

use crate::shared::same;
use desk_io::{Desk, MemDesk, RealDesk, To, Which, put_all, read_all};
use std::alloc::{AllocError, Global};
use std::fs;

/// Two certificates that are longer than a piece of the desk in memory.
const FIRST: &[u8] = b"fbas-cert 1st";

const SECOND: &[u8] = b"fbas-cert 2nd one";

/// Whether a file is made, written and finished: once a text is put it has its name.
fn write<D: Desk>(desk: &mut D, name: &str, bytes: &[u8]) -> bool {
    desk.create(name).is_ok()
        && put_all(desk, To::Cert, bytes).is_ok()
        && put_all(desk, To::Out, b"yes\n").is_ok()
}

/// What is read of the named file from its first byte.
fn read<D: Desk>(
    alloc: Global,
    desk: &mut D,
    which: Which,
    name: &str,
) -> Result<String, AllocError> {
    let is_begun = desk.begin(which, name).is_ok();
    let bytes = read_all(alloc, desk, which, 64);
    format!(in alloc; "{is_begun} {bytes:?}; ")
}

/// Before anything is made: nothing can be read or written.
fn nothing<D: Desk>(alloc: Global, desk: &mut D) -> Result<String, AllocError> {
    let is_early = desk.put(To::Cert, FIRST).is_ok();
    let read = read(alloc, desk, Which::Script, "desk_io_one")?;
    format!(in alloc; "{is_early} {read}")
}

/// A file that is begun is replaced: what is left of it stays, and its name is the other's.
fn replaced<D: Desk>(alloc: Global, desk: &mut D) -> Result<String, AllocError> {
    let is_made = write(desk, "desk_io_one", FIRST);
    let is_begun = desk.begin(Which::Config, "desk_io_one").is_ok();
    let mut front = [0; 4];
    let count = desk.next(Which::Config, &mut front);
    let is_replaced = write(desk, "desk_io_one", SECOND);
    let rest = read_all(alloc, desk, Which::Config, 64);
    format!(in alloc; "{is_made} {is_begun} {count:?} {front:?} {is_replaced} {rest:?}; ")
}

/// Each of the four files is that of its name.
fn each<D: Desk>(alloc: Global, desk: &mut D) -> Result<String, AllocError> {
    let is_made = write(desk, "desk_io_two", FIRST);
    let config = read(alloc, desk, Which::Config, "desk_io_one")?;
    let orgs = read(alloc, desk, Which::Orgs, "desk_io_two")?;
    let script = read(alloc, desk, Which::Script, "desk_io_one")?;
    let cert = read(alloc, desk, Which::Cert, "desk_io_two")?;
    format!(in alloc; "{is_made} {config}{orgs}{script}{cert}")
}

/// The whole script.
fn script<D: Desk>(alloc: Global, desk: &mut D) -> Result<String, AllocError> {
    let nothing = nothing(alloc, desk)?;
    let replaced = replaced(alloc, desk)?;
    let each = each(alloc, desk)?;
    format!(in alloc; "{nothing}{replaced}{each}")
}

/// The same on a desk in memory, in pieces of seven bytes.
fn in_memory(alloc: Global) -> Result<String, AllocError> {
    let mut names = Vec::new(alloc);
    names.push(String::from_str(alloc, "desk_io_one")?)?;
    names.push(String::from_str(alloc, "desk_io_two")?)?;
    let mut desk = MemDesk::new(alloc, Vec::new(alloc), names, 7, 256, Vec::new(alloc))?;
    script(alloc, &mut desk)
}

const WANT: &str = "false false Ok([]); \
    true true Ok(4) [102, 98, 97, 115] true Ok([45, 99, 101, 114, 116, 32, 49, 115, 116]); \
    true true Ok([102, 98, 97, 115, 45, 99, 101, 114, 116, 32, 50, 110, 100, 32, 111, 110, 101]); \
    true Ok([102, 98, 97, 115, 45, 99, 101, 114, 116, 32, 49, 115, 116]); \
    true Ok([102, 98, 97, 115, 45, 99, 101, 114, 116, 32, 50, 110, 100, 32, 111, 110, 101]); \
    true Ok([102, 98, 97, 115, 45, 99, 101, 114, 116, 32, 49, 115, 116]); ";

#[test]
fn the_same_calls_read_the_same_bytes_on_both_desks(rt: HostRuntime) {
    let alloc = rt.alloc();
    same(&rt, in_memory(alloc), WANT);
    let mut desk = RealDesk::new(&rt);
    same(&rt, script(alloc, &mut desk), WANT);
    assert!(rt; fs::remove_file(&rt, "desk_io_one").is_ok());
    assert!(rt; fs::remove_file(&rt, "desk_io_two").is_ok());
}

/// What is no certificate is replaced twice, and where its bytes are then.
fn keeping<D: Desk>(alloc: Global, desk: &mut D) -> Result<String, AllocError> {
    let is_made = write(desk, "desk_io_kept", b"01")
        && write(desk, "desk_io_kept", b"2")
        && write(desk, "desk_io_kept", FIRST);
    let first = read(alloc, desk, Which::Cert, "desk_io_kept~")?;
    let second = read(alloc, desk, Which::Cert, "desk_io_kept~2")?;
    let left = read(alloc, desk, Which::Cert, "desk_io_kept.part")?;
    format!(in alloc; "{is_made} {first}{second}{left}")
}

#[test]
fn what_the_machine_keeps_has_its_bytes(rt: HostRuntime) {
    let mut desk = RealDesk::new(&rt);
    let want = "true true Ok([48, 49]); true Ok([50]); false Ok([]); ";
    same(&rt, keeping(rt.alloc(), &mut desk), want);
    for name in ["desk_io_kept", "desk_io_kept~", "desk_io_kept~2"] {
        assert!(rt; fs::remove_file(&rt, name).is_ok());
    }
}
