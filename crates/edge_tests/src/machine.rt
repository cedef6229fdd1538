//! A file system that does what it's told, and tells what was asked of it.

use std::alloc::{AllocError, Allocator, Global};
use std::cell::Cell;
use std::fmt::Display;
use std::fs::{Metadata, OpenFile, OpenOptions, Permissions};
use std::io::{self, ErrorKind, Read, Seek, SeekFrom, Write};
use std::rt::Files;

/// What has a name.
#[derive(Clone, Copy, PartialEq, Eq)]
pub enum There {
    Missing,
    Empty,
    Certificate,
    /// A regular file that is no certificate.
    Other,
    /// A link to such a file.
    Link,
    /// No regular file.
    Device,
}

/// The names: that of the certificate, of the new file beside it, of their folder, and all others.
#[derive(Clone, Copy, PartialEq, Eq)]
pub enum Name {
    Made,
    Part,
    Folder,
    Another,
}

/// A call of the file system, or of one of its files.
#[derive(Clone, Copy, PartialEq, Eq)]
pub enum Step {
    Nothing,
    Open(Name),
    See(Name),
    Stat(Name),
    Read(Name),
    Write(Name),
    Sync(Name),
    Mode,
    Keep,
    Rename,
    Remove,
    Out,
}

/// What the certificate's and the new file's name stand for, how many names that a file may be kept under are taken, how many bytes
/// a read gives at most, and which step fails, in what way, and how often where it's an opening.
#[derive(Clone, Copy)]
pub struct Plan {
    pub made: There,
    pub part: There,
    pub kept: u32,
    pub piece: usize,
    pub failing: Step,
    pub kind: ErrorKind,
    pub times: u32,
}

/// No file is there, and no call fails.
pub const PLAIN: Plan = Plan {
    made: There::Missing,
    part: There::Missing,
    kept: 0,
    piece: 64,
    failing: Step::Nothing,
    kind: ErrorKind::Other,
    times: 0,
};

/// The file system: its plan, what is left of it, and its calls, told once where the same ones come in a row.
#[derive(Drop)]
pub struct Machine {
    alloc: Global,
    plan: Plan,
    part: Cell<There>,
    kept: Cell<u32>,
    left: Cell<u32>,
    is_replaced: Cell<bool>,
    calls: Cell<u32>,
    last: Cell<String>,
    told: Cell<String>,
}

/// A file that is open.
#[derive(Drop)]
pub struct Opened {
    name: Name,
    there: There,
    at: usize,
    piece: usize,
    failing: Step,
    kind: ErrorKind,
}

fn name_of(path: &str) -> Name {
    match path {
        "made" => Name::Made,
        "made.part" => Name::Part,
        "." => Name::Folder,
        _ => Name::Another,
    }
}

impl Machine {
    pub fn new(alloc: Global, plan: Plan) -> Machine {
        Machine {
            alloc,
            plan,
            part: Cell::new(plan.part),
            kept: Cell::new(plan.kept),
            left: Cell::new(plan.times),
            is_replaced: Cell::new(false),
            calls: Cell::new(0),
            last: Cell::new(String::new(alloc)),
            told: Cell::new(String::new(alloc)),
        }
    }

    /// How many calls came, and what they asked.
    pub fn told(self) -> Result<String, AllocError> {
        let (calls, told) = (self.calls.get(), self.told.into_inner());
        format!(in self.alloc; "{calls}{told}")
    }

    /// Whether the certificate's name is another file's now.
    pub fn is_replaced(&self) -> bool {
        self.is_replaced.get()
    }

    /// Whether a new file is left.
    pub fn has_part(&self) -> bool {
        self.part.get() != There::Missing
    }

    /// Tells of a call.
    fn tell(&self, call: String) -> Result<(), AllocError> {
        self.calls.set(self.calls.get().saturating_add(1));
        let last = self.last.replace(String::new(self.alloc));
        if last.as_str() != call.as_str() {
            let mut told = self.told.replace(String::new(self.alloc));
            told.push_str("; ")?;
            told.push_str(call.as_str())?;
            self.told.set(told);
        }
        self.last.set(call);
        Ok(())
    }

    /// Fails where the plan has it.
    fn step(&self, step: Step) -> io::Result<()> {
        match self.left.get() {
            left if left > 0 && step == self.plan.failing => {
                self.left.set(left - 1);
                Err(io::Error::from(self.plan.kind))
            }
            _ => Ok(()),
        }
    }

    fn there(&self, name: Name) -> There {
        match name {
            Name::Made => self.plan.made,
            Name::Part => self.part.get(),
            Name::Folder | Name::Another => There::Device,
        }
    }

    /// Opens what is there as the options say.
    fn open(&self, how: &OpenOptions, name: Name) -> io::Result<()> {
        let is_there = self.there(name) != There::Missing;
        if is_there && how.asks_create_new() {
            return Err(io::Error::from(ErrorKind::AlreadyExists));
        }
        if !is_there && !how.asks_create_new() && !how.asks_create() {
            return Err(io::Error::from(ErrorKind::NotFound));
        }
        if name == Name::Part && how.asks_create_new() {
            self.part.set(There::Empty);
        }
        Ok(())
    }
}

/// The path and each option that is set.
fn asked(alloc: Global, how: &OpenOptions, path: &str) -> Result<String, AllocError> {
    let mut asked = String::from_str(alloc, path)?;
    for (is_set, word) in [
        (how.asks_read(), " read"),
        (how.asks_write(), " write"),
        (how.asks_append(), " append"),
        (how.asks_truncate(), " truncate"),
        (how.asks_create(), " create"),
        (how.asks_create_new(), " create_new"),
    ] {
        if is_set {
            asked.push_str(word)?;
        }
    }
    Ok(asked)
}

/// What no desk calls.
fn unsupported() -> io::Error {
    io::Error::from(ErrorKind::Unsupported)
}

impl Files for Machine {
    type File = Opened;

    type Dir = Opened;

    fn open_file(&self, how: &OpenOptions, path: &str) -> io::Result<Opened> {
        let name = name_of(path);
        self.tell(asked(self.alloc, how, path)?)?;
        self.step(Step::Open(name))?;
        let there = self.there(name);
        self.open(how, name)?;
        Ok(Opened {
            name,
            there,
            at: 0,
            piece: self.plan.piece,
            failing: self.plan.failing,
            kind: self.plan.kind,
        })
    }

    fn open_dir(&self, _path: &str) -> io::Result<Opened> {
        Err(unsupported())
    }

    fn metadata(&self, _path: &str) -> io::Result<Metadata> {
        Err(unsupported())
    }

    fn symlink_metadata(&self, path: &str) -> io::Result<Metadata> {
        self.tell(format!(in self.alloc; "see {path}")?)?;
        let name = name_of(path);
        self.step(Step::See(name))?;
        match self.there(name) {
            There::Missing => Err(io::Error::from(ErrorKind::NotFound)),
            There::Empty | There::Certificate | There::Other => Ok(Metadata::of_file(0)),
            There::Link => Ok(Metadata::of_symlink(0)),
            There::Device => Ok(Metadata::of_dir()),
        }
    }

    fn copy(&self, _from: &str, _to: &str) -> io::Result<u64> {
        Err(unsupported())
    }

    fn rename(&self, from: &str, to: &str) -> io::Result<()> {
        self.tell(format!(in self.alloc; "rename {from} {to}")?)?;
        self.step(Step::Rename)?;
        self.part.set(There::Missing);
        self.is_replaced.set(true);
        Ok(())
    }

    fn remove_file(&self, path: &str) -> io::Result<()> {
        self.tell(format!(in self.alloc; "remove {path}")?)?;
        self.step(Step::Remove)?;
        self.part.set(There::Missing);
        Ok(())
    }

    fn create_dir(&self, _path: &str) -> io::Result<()> {
        Err(unsupported())
    }

    fn remove_dir(&self, _path: &str) -> io::Result<()> {
        Err(unsupported())
    }

    fn remove_dir_all<B: Allocator>(&self, _alloc: B, _path: &str) -> io::Result<()> {
        Err(unsupported())
    }

    fn hard_link(&self, original: &str, link: &str) -> io::Result<()> {
        self.tell(format!(in self.alloc; "link {original} {link}")?)?;
        self.step(Step::Keep)?;
        match self.kept.get() {
            0 => Ok(()),
            kept => {
                self.kept.set(kept - 1);
                Err(io::Error::from(ErrorKind::AlreadyExists))
            }
        }
    }
}

impl Print for Machine {
    fn print<D: Display + Drop>(&self, _value: D) -> io::Result<()> {
        Err(unsupported())
    }

    fn println<D: Display + Drop>(&self, _value: D) -> io::Result<()> {
        Err(unsupported())
    }

    fn write_all(&self, bytes: &[u8]) -> io::Result<()> {
        self.tell(format!(in self.alloc; "out {}", bytes.len())?)?;
        self.step(Step::Out)
    }
}

impl Opened {
    /// Fails where the plan has it.
    fn step(&self, step: Step) -> io::Result<()> {
        if step == self.failing {
            return Err(io::Error::from(self.kind));
        }
        Ok(())
    }
}

/// What a regular file holds.
fn held(there: There) -> &'static [u8] {
    match there {
        There::Certificate => b"fbas-cert 1\n",
        There::Other | There::Link => b"fbas-cert",
        There::Missing | There::Empty | There::Device => b"",
    }
}

impl Read for Opened {
    fn read(&mut self, buf: &mut [u8]) -> io::Result<usize> {
        self.step(Step::Read(self.name))?;
        let held = held(self.there);
        let left = &held[self.at.min(held.len())..];
        let count = left.len().min(buf.len()).min(self.piece);
        buf[..count].copy_from_slice(&left[..count]);
        self.at = self.at.saturating_add(count);
        Ok(count)
    }
}

impl Write for Opened {
    fn write(&mut self, bytes: &[u8]) -> io::Result<usize> {
        self.step(Step::Write(self.name))?;
        Ok(bytes.len())
    }

    fn flush(&mut self) -> io::Result<()> {
        Err(unsupported())
    }
}

impl Seek for Opened {
    fn seek(&mut self, _to: SeekFrom) -> io::Result<u64> {
        Err(unsupported())
    }
}

impl OpenFile for Opened {
    fn metadata(&self) -> io::Result<Metadata> {
        self.step(Step::Stat(self.name))?;
        if self.there == There::Device {
            return Ok(Metadata::of_dir());
        }
        Ok(Metadata::of_file(0))
    }

    fn set_len(&self, _size: u64) -> io::Result<()> {
        Err(unsupported())
    }

    fn sync_all(&self) -> io::Result<()> {
        self.step(Step::Sync(self.name))
    }

    fn sync_data(&self) -> io::Result<()> {
        Err(unsupported())
    }

    fn set_permissions(&self, _perm: Permissions) -> io::Result<()> {
        self.step(Step::Mode)
    }
}
