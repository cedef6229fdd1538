//! What is left to read of each begun file.
ghost use Rattle.std.specs.Prelude.{◌≡◌, ◌<◌, ◌≤◌, ◌++◌, [], length, min, take, IfOk};
ghost use Rattle.desk_io.specs.State.{left_at, set_left};

use crate::desk::Which;
use crate::memory::reader::Reader;
use std::alloc::{AllocError, Global};
use std::marker::Model;

/// The four readers, each with room for a file of the same length.
#[derive(Drop)]
pub struct Readers {
    config: Reader,
    orgs: Reader,
    script: Reader,
    cert: Reader,
}

impl Model for Readers {
    ghost use Rattle.std.specs.Prelude.{◌≡◌};
    ghost use Rattle.desk_io.specs.Entries.{Readings};

    ghost Value = { Readings };

    ghost view = { λ r. record {
      size = r.config.size;
      left = record { config = r.config.left; orgs = r.orgs.left; script = r.script.left; cert = r.cert.left };
    } };

    ghost invariant = { λ r. (r.orgs.size ≡ r.config.size) × (r.script.size ≡ r.config.size) × (r.cert.size ≡ r.config.size) };
}

impl Readers {
    /// With nothing left anywhere, and room for files of that many bytes.
    pub fn new(alloc: Global, size: usize) -> Result<Readers, AllocError>
        ensures { IfOk result (λ r. r
            ≡ record { size = size; left = record { config = []; orgs = []; script = []; cert = [] } }) }
    {
        Ok(Readers {
            config: Reader::new(alloc, size)?,
            orgs: Reader::new(alloc, size)?,
            script: Reader::new(alloc, size)?,
            cert: Reader::new(alloc, size)?,
        })
    }

    /// Makes the whole file what is left there.
    pub fn begin(&mut self, which: Which, file: &[u8])
        requires { length file.now ≤ self.old.size }
        ensures { self.new ≡ record self.old { left = set_left which file.now self.old.left } }
    {
        match which {
            Which::Config => self.config.begin(file),
            Which::Orgs => self.orgs.begin(file),
            Which::Script => self.script.begin(file),
            Which::Cert => self.cert.begin(file),
        }
    }

    /// Leaves nothing there.
    pub fn stop(&mut self, which: Which)
        ensures { self.new ≡ record self.old { left = set_left which [] self.old.left } }
    {
        match which {
            Which::Config => self.config.stop(),
            Which::Orgs => self.orgs.stop(),
            Which::Script => self.script.stop(),
            Which::Cert => self.cert.stop(),
        }
    }

    /// Takes bytes off the front of what is left there, at most `most` of them.
    pub fn take(&mut self, which: Which, buf: &mut [u8], most: usize) -> usize
        requires { 0 < most }
        ensures count { result ≡ min (min (length (left_at which self.old.left)) (length buf.new)) most }
        ensures front { left_at which self.old.left ≡ take result buf.new ++ left_at which self.new.left }
        ensures rest { self.new ≡ record self.old { left = set_left which (left_at which self.new.left) self.old.left } }
        ensures end { 0 < length buf.new → result ≡ 0 → left_at which self.old.left ≡ [] }
    {
        match which {
            Which::Config => self.config.take(buf, most),
            Which::Orgs => self.orgs.take(buf, most),
            Which::Script => self.script.take(buf, most),
            Which::Cert => self.cert.take(buf, most),
        }
    }
}
