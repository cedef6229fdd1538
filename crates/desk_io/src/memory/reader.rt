//! A copy of a file, of which some is left to read.
ghost use Rattle.std.specs.Prelude.{◌≡◌, ◌<◌, ◌≤◌, ◌+◌, ◌++◌, [], length, min, take, IfOk};

use crate::memory::buffer::Buffer;
use std::alloc::{AllocError, Global};
use std::marker::Model;

/// The copy has memory of its own, so that a file that is made empty leaves what is left of it to read.
#[derive(Drop)]
pub struct Reader {
    bytes: Buffer,
    at: usize,
}

impl Model for Reader {
    ghost use Rattle.std.specs.Prelude.{◌≤◌, length, drop};
    ghost use Rattle.desk_io.specs.Entries.{Reading};

    ghost Value = { Reading };

    ghost view = { λ r. record { size = r.bytes.size; left = drop r.at r.bytes.bytes } };

    ghost invariant = { λ r. r.at ≤ length r.bytes.bytes };
}

fn copy_front(buf: &mut [u8], from: &[u8])
    requires { length from.now ≤ length buf.old }
    ensures front { take (length from.now) buf.new ≡ from.now }
    ensures len { length buf.new ≡ length buf.old }
{
    let count = from.len();
    buf[..count].copy_from_slice(from);
}

impl Reader {
    /// With nothing left, and room for a file of that many bytes.
    pub fn new(alloc: Global, size: usize) -> Result<Reader, AllocError>
        ensures { IfOk result (λ r. r ≡ record { size = size; left = [] }) }
    {
        let bytes = Buffer::new(alloc, size)?;
        Ok(Reader { bytes, at: 0 })
    }

    /// Makes the whole file what is left.
    pub fn begin(&mut self, file: &[u8])
        requires { length file.now ≤ self.old.size }
        ensures { self.new ≡ record self.old { left = file.now } }
    {
        self.at = 0;
        self.bytes.clear();
        self.bytes.append(file);
    }

    /// Leaves nothing.
    pub fn stop(&mut self)
        ensures { self.new ≡ record self.old { left = [] } }
    {
        self.at = 0;
        self.bytes.clear();
    }

    /// Takes bytes off the front, at most `most` of them.
    pub fn take(&mut self, buf: &mut [u8], most: usize) -> usize
        requires { 0 < most }
        ensures count { result ≡ min (min (length self.old.left) (length buf.new)) most }
        ensures front { self.old.left ≡ take result buf.new ++ self.new.left }
        ensures end { 0 < length buf.new → result ≡ 0 → self.old.left ≡ [] }
        ensures size { self.new.size ≡ self.old.size }
    {
        let left = &self.bytes.bytes()[self.at..];
        let count = left.len().min(buf.len()).min(most);
        copy_front(buf, &left[..count]);
        self.at += count;
        count
    }
}
