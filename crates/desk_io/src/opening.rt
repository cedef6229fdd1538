//! How the machine's files are opened.
ghost use Rattle.std.specs.Prelude.{◌≡◌, true, IfOk};
ghost use Rattle.std.specs.Fs.{new_options};

use crate::folder::Folder;
use std::fs::OpenOptions;
use std::io::ErrorKind;

/// How often a call of the system is tried that says it was interrupted. The last interruption is a failure.
pub const TRIES: u32 = 1_000;

/// Opens the named file, or says why it can't be.
///
/// A test tells that an interruption is tried again and that another error is a failure.
pub fn open_with<R: Folder>(rt: &R, options: &OpenOptions, name: &str) -> Result<R::File, ErrorKind>
    ensures { IfOk result (λ file. R.opened options.now name.now file) }
{
    for _ in 0..TRIES {
        match rt.open_named(options, name) {
            Ok(file) => return Ok(file),
            Err(e) if e.kind() == ErrorKind::Interrupted => {}
            Err(e) => return Err(e.kind()),
        }
    }
    Err(ErrorKind::Interrupted)
}

/// The options of a file that is read.
pub fn reading() -> OpenOptions
    ensures { result ≡ record new_options { read = true } }
{
    let mut options = OpenOptions::new();
    options.read(true);
    options
}

/// The options of a file that has to be there, and is written as it is.
pub fn writing_over() -> OpenOptions
    ensures { result ≡ record new_options { write = true } }
{
    let mut options = OpenOptions::new();
    options.write(true);
    options
}

/// The options of a file that is made, or made empty, and written.
pub fn writing() -> OpenOptions
    ensures { result ≡ record new_options { write = true; create = true; truncate = true } }
{
    let mut options = OpenOptions::new();
    options.write(true).create(true).truncate(true);
    options
}

/// The options of a file that must not be there, not even as a link, and is made and written.
pub fn making() -> OpenOptions
    ensures { result ≡ record new_options { write = true; create_new = true } }
{
    let mut options = OpenOptions::new();
    options.write(true).create_new(true);
    options
}
