//! Bytes whose memory is taken when the buffer is made.
ghost use Rattle.std.specs.Prelude.{◌≡◌, ◌≤◌, ◌+◌, ◌++◌, [], length, IfOk};

use std::alloc::{AllocError, Global};
use std::marker::Model;

/// At most `size` bytes, which are put without taking memory.
#[derive(Drop)]
pub struct Buffer {
    bytes: Vec<u8>,
    size: usize,
}

impl Model for Buffer {
    ghost use Rattle.std.specs.Prelude.{◌≤◌, vec_len, vec_capacity};
    ghost use Rattle.desk_io.specs.Entries.{Block};

    ghost Value = { Block };

    ghost view = { λ b. record { size = b.size; bytes = b.bytes.items } };

    ghost invariant = { λ b. (vec_len b.bytes ≤ b.size) × (b.size ≤ vec_capacity b.bytes) };
}

impl Buffer {
    /// An empty one with room for that many bytes.
    pub fn new(alloc: Global, size: usize) -> Result<Buffer, AllocError>
        ensures { IfOk result (λ b. b ≡ record { size = size; bytes = [] }) }
    {
        let bytes = Vec::with_capacity(alloc, size)?;
        Ok(Buffer { bytes, size })
    }

    /// Makes it empty.
    pub fn clear(&mut self)
        ensures { self.new ≡ record self.old { bytes = [] } }
    {
        self.bytes.clear();
    }

    /// Puts more bytes at its end.
    pub fn append(&mut self, more: &[u8])
        requires { length self.old.bytes + length more.now ≤ self.old.size }
        ensures { self.new ≡ record self.old { bytes = self.old.bytes ++ more.now } }
    {
        let appended = self.bytes.extend_from_slice(more);
        prove!(appended.is_ok());
        let _ = appended;
    }

    /// Its bytes.
    pub fn bytes(&self) -> &[u8]
        ensures value { result.now ≡ self.now.bytes }
        ensures fits { length self.now.bytes ≤ self.now.size }
    {
        &self.bytes
    }
}
