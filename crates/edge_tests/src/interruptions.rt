//! Files that fail: how often an interrupted call is tried again.

ghost use Rattle.std.specs.Prelude.{◌≡◌, IfOk};

use crate::shared::same;
use desk_io::{read_some, write_some};
use std::alloc::{AllocError, Global};
use std::io::{self, ErrorKind, Read, Write};

/// Fails with this kind of error as often as this, and then moves a byte.
#[derive(Drop)]
struct Failing(ErrorKind, u32);

impl Failing {
    fn turn(&mut self) -> io::Result<usize>
        ensures { IfOk result (λ count. count ≡ 1) }
    {
        if self.1 == 0 {
            return Ok(1);
        }
        self.1 -= 1;
        Err(io::Error::from(self.0))
    }
}

impl Read for Failing {
    fn read(&mut self, buf: &mut [u8]) -> io::Result<usize> {
        Ok(self.turn()?.min(buf.len()))
    }
}

impl Write for Failing {
    fn write(&mut self, bytes: &[u8]) -> io::Result<usize> {
        Ok(self.turn()?.min(bytes.len()))
    }

    fn flush(&mut self) -> io::Result<()> {
        Ok(())
    }
}

/// How many bytes are moved by a read and by a write, each of a file that fails so often.
fn moved(alloc: Global, kind: ErrorKind, times: u32) -> Result<String, AllocError> {
    let read = read_some(&mut Failing(kind, times), &mut [0; 4]);
    let written = write_some(&mut Failing(kind, times), b"text");
    format!(in alloc; "{read:?} {written:?}")
}

#[test]
fn the_thousandth_interruption_fails_and_any_other_error_at_once(rt: HostRuntime) {
    for (kind, times, want) in [
        (ErrorKind::Interrupted, 0, "Some(1) Some(1)"),
        (ErrorKind::Interrupted, 999, "Some(1) Some(1)"),
        (ErrorKind::Interrupted, 1_000, "None None"),
        (ErrorKind::StorageFull, 1, "None None"),
        (ErrorKind::UnexpectedEof, 1, "None None"),
    ] {
        same(&rt, moved(rt.alloc(), kind, times), want);
    }
}
