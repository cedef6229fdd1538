//! Where the bytes of the files that were made stand in the room.
ghost use Rattle.std.specs.Prelude.{◌≡◌, ◌<◌, ◌≤◌, ◌++◌, [], None, length, take};
ghost use Rattle.lent_desk.specs.Spans.{span_at, with_span, slice_in, Fits};

use crate::bytes::copy_front;
use crate::files::File;

/// The bytes from one place of the room up to another.
#[derive(Clone, Copy, Debug)]
pub struct Span {
    pub from: usize,
    pub to: usize,
}

/// The certificate file that was created last, and where its first byte stands.
#[derive(Clone, Copy, Debug)]
pub struct Open {
    pub file: File,
    pub from: usize,
}

/// Where each file stands that was made, and in place of which nothing is lent any more.
#[derive(Clone, Copy, Debug)]
pub struct Spans {
    pub config: Option<Span>,
    pub orgs: Option<Span>,
    pub script: Option<Span>,
    pub cert: Option<Span>,
    pub made: Option<Span>,
}

impl Span {
    /// Takes bytes off the front, as many as `buf` has room for.
    pub fn take(&mut self, kept: &[u8], buf: &mut [u8]) -> usize
        requires { Fits (length kept.now) self.old }
        ensures bound { result ≤ length buf.new }
        ensures front { slice_in self.old kept.now ≡ take result buf.new ++ slice_in self.new kept.now }
        ensures end { 0 < length buf.new → result ≡ 0 → slice_in self.old kept.now ≡ [] }
        ensures fits { Fits (length kept.now) self.new }
    {
        let part = &kept[self.from..self.to];
        let count = part.len().min(buf.len());
        copy_front(buf, &part[..count]);
        self.from += count;
        count
    }
}

impl Spans {
    /// Nothing was made.
    pub fn none() -> Spans
        ensures { result ≡ record { config = None; orgs = None; script = None; cert = None; made = None } }
    {
        Spans {
            config: None,
            orgs: None,
            script: None,
            cert: None,
            made: None,
        }
    }

    /// Where the file stands, if it was made.
    pub fn at(&self, file: File) -> Option<Span>
        ensures { result ≡ span_at file self.now }
    {
        match file {
            File::Config => self.config,
            File::Orgs => self.orgs,
            File::Script => self.script,
            File::Cert => self.cert,
            File::Made => self.made,
        }
    }

    /// The file was made, and stands there.
    pub fn set(&mut self, file: File, span: Span)
        ensures { self.new ≡ with_span file span self.old }
    {
        match file {
            File::Config => self.config = Some(span),
            File::Orgs => self.orgs = Some(span),
            File::Script => self.script = Some(span),
            File::Cert => self.cert = Some(span),
            File::Made => self.made = Some(span),
        }
    }
}
