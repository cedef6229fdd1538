//! A file in memory, or a name that may be created.
ghost use Rattle.std.specs.Prelude.{◌≡◌, ◌≤◌, ◌+◌, ◌++◌, [], Some, None, length, MatchOption, IsSomeAnd, IfOk, string_bytes, All, map, ◌∷◌};
ghost use Rattle.std.specs.Option.{option_map};
ghost use Rattle.std.specs.Str.{bytes_eq};
ghost use Rattle.desk_io.specs.Entries.{IsFirst, IsMissing, entry_of, missing_of};

use crate::memory::buffer::Buffer;
use std::alloc::{AllocError, Global};
use std::marker::Model;

/// Seen as its name, how long a file there is room for, and its bytes where there is a file.
#[derive(Drop)]
pub struct MemFile {
    name: String,
    bytes: Buffer,
    exists: bool,
}

impl Model for MemFile {
    ghost use Rattle.std.specs.Prelude.{Some, None, string_bytes, if◌then◌else◌};
    ghost use Rattle.desk_io.specs.Entries.{Entry};

    ghost Value = { Entry };

    ghost view = { λ f. record {
      name = string_bytes f.name;
      size = f.bytes.size;
      held = if f.exists then Some f.bytes.bytes else None;
    } };
}

impl MemFile {
    /// A name that may be created, with room for a file of that many bytes.
    pub fn missing(alloc: Global, name: String, size: usize) -> Result<MemFile, AllocError>
        ensures { IfOk result (λ f. f ≡ record { name = string_bytes name; size = size; held = None }) }
    {
        let bytes = Buffer::new(alloc, size)?;
        Ok(MemFile {
            name,
            bytes,
            exists: false,
        })
    }

    /// A file of these bytes, with room for one of that many.
    pub fn holding(
        alloc: Global,
        name: String,
        size: usize,
        held: &[u8],
    ) -> Result<MemFile, AllocError>
        requires { length held.now ≤ size }
        ensures { IfOk result (λ f. f ≡ record { name = string_bytes name; size = size; held = Some held.now }) }
    {
        let mut bytes = Buffer::new(alloc, size)?;
        bytes.append(held);
        Ok(MemFile {
            name,
            bytes,
            exists: true,
        })
    }

    /// Whether it has this name.
    pub fn is_named(&self, name: &str) -> bool
        ensures { result ≡ bytes_eq name.now self.now.name }
    {
        name == self.name.as_str()
    }

    /// Its bytes, if there is such a file.
    pub fn bytes(&self) -> Option<&[u8]>
        ensures held { MatchOption result (self.now.held ≡ None) (λ bytes. self.now.held ≡ Some bytes.now) }
        ensures fits { MatchOption result (Unit {0}) (λ bytes. length bytes.now ≤ self.now.size) }
    {
        if self.exists {
            Some(self.bytes.bytes())
        } else {
            None
        }
    }

    /// Makes it an empty file.
    pub fn empty(&mut self)
        ensures { self.new ≡ record self.old { held = Some [] } }
    {
        self.bytes.clear();
        self.exists = true;
    }

    /// Puts more bytes at the file's end.
    pub fn append(&mut self, more: &[u8])
        requires { IsSomeAnd self.old.held (λ bytes. length bytes + length more.now ≤ self.old.size) }
        ensures { self.new ≡ record self.old { held = option_map (λ bytes. bytes ++ more.now) self.old.held } }
    {
        if self.exists {
            self.bytes.append(more);
        }
    }
}

/// The first of this name.
pub fn find(files: &[MemFile], name: &str) -> Option<usize>
    ensures { MatchOption result (IsMissing files.now name.now) (λ i. IsFirst files.now i name.now) }
{
    for (i, file) in files.iter().enumerate() {
        if file.is_named(name) {
            return Some(i);
        }
    }
    None
}

/// How long the longest file is, and at least that long.
pub fn longest(files: &[(String, Vec<u8>)], least: usize) -> usize
    ensures least { least ≤ result }
    ensures each { All (λ file. length file.1.items ≤ result) files.now }
{
    let mut longest = least;
    for (_, bytes) in files {
        longest = longest.max(bytes.len());
    }
    longest
}

/// The files, each with room for that many bytes.
fn held_files(
    alloc: Global,
    mut files: Vec<(String, Vec<u8>)>,
    size: usize,
) -> Result<Vec<MemFile>, AllocError>
    requires { All (λ file. length file.1.items ≤ size) files.items }
    ensures { IfOk result (λ made. made.items ≡ map (entry_of size) files.items) }
{
    let mut made = Vec::new(alloc);
    'files: while !files.is_empty() {
        let (name, bytes) = files.remove(0);
        made.push(MemFile::holding(alloc, name, size, &bytes)?)?;
    }
    Ok(made)
}

/// The files, and then the names that may be created, each with room for that many bytes.
pub fn all_files(
    alloc: Global,
    files: Vec<(String, Vec<u8>)>,
    mut may_create: Vec<String>,
    size: usize,
) -> Result<Vec<MemFile>, AllocError>
    requires { All (λ file. length file.1.items ≤ size) files.items }
    ensures { IfOk result (λ made. made.items
        ≡ map (entry_of size) files.items ++ map (missing_of size) may_create.items) }
{
    let mut made = held_files(alloc, files, size)?;
    'names: while !may_create.is_empty() {
        let name = may_create.remove(0);
        made.push(MemFile::missing(alloc, name, size)?)?;
    }
    Ok(made)
}
