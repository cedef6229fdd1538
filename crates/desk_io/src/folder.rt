//! The calls by which a desk opens, renames and links files: what each asked is told, where it says yes.
ghost use Rattle.std.specs.Prelude.{◌≡◌, IfOk, IfErr, OnOk};
ghost use Rattle.std.specs.IoError.{error_kind};

use std::fs::{self, Metadata, OpenFile, OpenOptions};
use std::io::{self, ErrorKind, Read, Write};
use std::rt::Files;

/// A file system, as a desk asks it.
///
/// The machine's own contracts say nothing of its names. So what is known of a file is how it was come by: the members say which call
/// said yes, and a body that makes none, or one of another name, can't show them.
pub trait Folder {
    type File: Read + Write + OpenFile + Drop;

    ghost use Rattle.std.specs.Prelude.{ℕ, List};
    ghost use Rattle.std.specs.declared.fs.attrs.Metadata.{Metadata};
    ghost use Rattle.std.specs.declared.fs.options.OpenOptions.{OpenOptions};

    /// The file was opened so, under this name.
    ghost opened: { OpenOptions → List ℕ → Self.File → Type 0 };

    /// What had the first name was given the second.
    ghost renamed: { List ℕ → List ℕ → Type 0 };

    /// What has the first name was given the second too.
    ghost linked: { List ℕ → List ℕ → Type 0 };

    /// This has the name, and not what a link leads to.
    ghost seen: { List ℕ → Metadata → Type 0 };

    /// Nothing has the name.
    ghost missing: { List ℕ → Type 0 };

    /// Opens the file of this name.
    fn open_named(&self, how: &OpenOptions, name: &str) -> io::Result<Self::File>
        ensures { IfOk result (λ file. opened how.now name.now file) };

    /// Gives the file of the first name the second, in the place of what has it.
    fn rename_named(&self, from: &str, to: &str) -> io::Result<()>
        ensures { OnOk result (renamed from.now to.now) };

    /// Gives the file of the first name the second too, where nothing has it.
    fn link_named(&self, name: &str, kept: &str) -> io::Result<()>
        ensures { OnOk result (linked name.now kept.now) };

    /// What has this name, and not what a link leads to.
    fn look_at(&self, name: &str) -> io::Result<Metadata>
        ensures seen { IfOk result (λ there. seen name.now there) }
        ensures missing { IfErr result (λ e. error_kind e ≡ ErrorKind.NotFound → missing name.now) };

    /// Takes the name away.
    fn remove_named(&self, name: &str) -> io::Result<()>;
}

/// Each file system of the machine is one. Of its calls nothing is known, so nothing is told.
impl<R: Files> Folder for R {
    type File = R::File;

    ghost use Rattle.std.specs.Prelude.{⊤};

    ghost opened = { λ _ _ _. ⊤ };

    ghost renamed = { λ _ _. ⊤ };

    ghost linked = { λ _ _. ⊤ };

    ghost seen = { λ _ _. ⊤ };

    ghost missing = { λ _. ⊤ };

    fn open_named(&self, how: &OpenOptions, name: &str) -> io::Result<R::File> {
        how.open(self, name)
    }

    fn rename_named(&self, from: &str, to: &str) -> io::Result<()> {
        fs::rename(self, from, to)
    }

    fn link_named(&self, name: &str, kept: &str) -> io::Result<()> {
        fs::hard_link(self, name, kept)
    }

    fn look_at(&self, name: &str) -> io::Result<Metadata> {
        fs::symlink_metadata(self, name)
    }

    fn remove_named(&self, name: &str) -> io::Result<()> {
        fs::remove_file(self, name)
    }
}
