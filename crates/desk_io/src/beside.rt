//! A new file that stands beside the certificate's name until it's finished, and then takes its place.
ghost use Rattle.std.specs.Prelude.{IfSome};
ghost use Rattle.desk_io.specs.RealDesk.{IsMade};

use crate::folder::Folder;
use crate::names::{Path, folder_of, is_device_name, with_end};
use crate::opening::{making, open_with, reading, writing, writing_over};
use crate::spare::{is_spare_there, spare_or_keep};
use std::fs::{Metadata, OpenFile, Permissions};
use std::io::ErrorKind;
use std::os::unix::fs::{MetadataExt, PermissionsExt};

/// What the name of a new file ends with.
const PART: &str = ".part";

/// Which file it is, whatever its names.
#[derive(Clone, Copy, PartialEq, Eq)]
struct FileId {
    device: u64,
    number: u64,
}

impl FileId {
    fn of(file: &Metadata) -> FileId {
        FileId {
            device: file.dev(),
            number: file.ino(),
        }
    }
}

/// The place of a new file beside the certificate's name. Where the new file is still there when this is let go, it's taken away.
pub struct Beside<'a, R: Folder> {
    rt: &'a R,
    name: Path,
    part: Path,
    made: FileId,
}

/// A file for a certificate, and its place where it stands beside the certificate's name.
pub struct Created<'a, R: Folder> {
    pub file: R::File,
    pub beside: Option<Beside<'a, R>>,
}

// Whether no file has the name, once one that a killed run left there is taken away.
fn is_free<R: Folder>(rt: &R, part: &str) -> bool {
    match rt.look_at(part) {
        Ok(there) => there.is_file() && is_spare_there(rt, part) && rt.remove_named(part).is_ok(),
        Err(e) => e.kind() == ErrorKind::NotFound,
    }
}

// Makes a new file beside the name, where the name leaves room for its end and the folder takes a file.
fn make_beside<'a, R: Folder>(rt: &'a R, name: &str) -> Option<Created<'a, R>>
    ensures { IfSome result (λ c. IsMade R.opened name.now c.file c.beside) }
{
    let part = with_end(name, PART)?;
    if name.is_empty() || is_device_name(name) || !is_free(rt, part.as_str()) {
        return None;
    }
    let name = Path::from(name).ok()?;
    let file = open_with(rt, &making(), part.as_str()).ok()?;
    let made = FileId::of(&file.metadata().ok()?);
    let beside = Some(Beside {
        rt,
        name,
        part,
        made,
    });
    Some(Created { file, beside })
}

// Opens the named file itself, made empty.
fn open_itself<'a, R: Folder>(rt: &'a R, name: &str) -> Option<Created<'a, R>>
    ensures { IfSome result (λ c. IsMade R.opened name.now c.file c.beside) }
{
    let file = open_with(rt, &writing(), name).ok()?;
    Some(Created { file, beside: None })
}

// In the place of a regular file: beside it with its permissions, or else itself where nothing is lost.
fn replace<'a, R: Folder>(rt: &'a R, name: &str, there: &Metadata) -> Option<Created<'a, R>>
    ensures { IfSome result (λ c. IsMade R.opened name.now c.file c.beside) }
{
    match make_beside(rt, name) {
        Some(created) => {
            // A file system may know no permissions.
            let permissions = Permissions::from_mode(there.mode() & 0o777);
            let _ = created.file.set_permissions(permissions);
            Some(created)
        }
        None if is_spare_there(rt, name) => open_itself(rt, name),
        None => None,
    }
}

/// A file for the certificate of this name. What is there stays as it is where a new file can be made beside it.
pub fn create_certificate<'a, R: Folder>(rt: &'a R, name: &str) -> Option<Created<'a, R>>
    ensures { IfSome result (λ c. IsMade R.opened name.now c.file c.beside) }
{
    match open_with(rt, &writing_over(), name) {
        Ok(file) => {
            let there = file.metadata().ok()?;
            if there.is_file() {
                replace(rt, name, &there)
            } else {
                // A pipe or a device.
                Some(Created { file, beside: None })
            }
        }
        Err(ErrorKind::NotFound) => match make_beside(rt, name) {
            Some(created) => Some(created),
            None => open_itself(rt, name),
        },
        Err(_) => None,
    }
}

// Whether the folder's names are on the disk, where that can be asked.
fn is_synced(folder: &impl OpenFile) -> bool {
    match folder.sync_all() {
        Ok(()) => true,
        Err(e) => e.kind() == ErrorKind::InvalidInput,
    }
}

// Whether the new file is still there, and no other run has taken its name.
fn is_there<R: Folder>(rt: &R, part: &str, made: FileId) -> bool {
    match rt.look_at(part) {
        Ok(there) => FileId::of(&there) == made,
        Err(_) => false,
    }
}

// Takes the new file away, where it's still there.
fn take_away<R: Folder>(rt: &R, part: &str, made: FileId) {
    if is_there(rt, part, made) {
        let _ = rt.remove_named(part);
    }
}

impl<R: Folder> Beside<'_, R> {
    ghost use Rattle.std.specs.Prelude.{IsTrue};
    ghost use Rattle.desk_io.specs.RealDesk.{name_of, part_of};
    ghost use Rattle.desk_io.specs.Spare.{MayGo};

    // Gives the new file the certificate's name, where nothing is lost by it.
    fn rename(&self) -> bool
        ensures renamed { IsTrue result → R.renamed (part_of self.now) (name_of self.now) }
        ensures may_go { IsTrue result →
            MayGo R.opened R.File.remaining R.linked R.seen R.missing (name_of self.now) }
    {
        let (name, part) = (self.name.as_str(), self.part.as_str());
        is_there(self.rt, part, self.made)
            && spare_or_keep(self.rt, name)
            && self.rt.rename_named(part, name).is_ok()
    }

    /// Gives the new file, once it's on the disk, the certificate's name, and sees that the name is there too.
    pub fn take_place(&self, file: &R::File) -> bool
        ensures renamed { IsTrue result → R.renamed (part_of self.now) (name_of self.now) }
        ensures may_go { IsTrue result →
            MayGo R.opened R.File.remaining R.linked R.seen R.missing (name_of self.now) }
    {
        match open_with(self.rt, &reading(), folder_of(self.name.as_str())) {
            Ok(folder) => file.sync_all().is_ok() && self.rename() && is_synced(&folder),
            // It may be written and not read.
            Err(_) => file.sync_all().is_ok() && self.rename(),
        }
    }
}

impl<R: Folder> Drop for Beside<'_, R> {
    fn drop(self) {
        let Beside {
            rt,
            name: _,
            part,
            made,
        } = self;
        take_away(rt, part.as_str(), made);
    }
}
