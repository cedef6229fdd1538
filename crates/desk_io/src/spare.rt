//! What a certificate may replace without a loss.
ghost use Rattle.std.specs.Prelude.{IsTrue};
ghost use Rattle.desk_io.specs.Spare.{IsSpare, IsSpareFile, IsKept, MayGo};

use crate::folder::Folder;
use crate::names::kept_name;
use crate::opening::{open_with, reading};
use crate::real::read_some;
use std::io::{ErrorKind, Read};

/// What every certificate begins with.
const FIRST: &[u8; 10] = b"fbas-cert ";

/// How many names a file may be kept under.
const MOST_KEPT: u32 = 1_000_000;

/// Whether what is left to read may be lost: it's nothing, or begins as a certificate. A read may give less than is there, so this
/// reads on while what came is the beginning of a certificate.
pub fn is_spare<F: Read>(file: &mut F) -> bool
    ensures { IsTrue result → IsSpare (F.remaining file.old) }
{
    let first = FIRST.as_slice();
    let mut front = [0; FIRST.len()];
    let mut at = 0;
    while at < first.len() {
        let wanted = &first[at..];
        let piece = &mut front[..wanted.len()];
        match read_some(file, piece) {
            Some(0) => return at == 0,
            Some(count) if piece[..count] == wanted[..count] => at += count,
            _ => return false,
        }
    }
    true
}

/// The same of the named file. One that can't be read may not be lost.
pub fn is_spare_there<R: Folder>(rt: &R, name: &str) -> bool
    ensures { IsTrue result → IsSpareFile R.opened R.File.remaining name.now }
{
    match open_with(rt, &reading(), name) {
        Ok(mut file) => is_spare(&mut file),
        Err(_) => false,
    }
}

// Gives the file the first free name of those that it may be kept under. It has both names then.
fn keep<R: Folder>(rt: &R, name: &str) -> bool
    ensures { IsTrue result → IsKept R.linked name.now }
{
    for number in 1..=MOST_KEPT {
        let Some(kept) = kept_name(name, number) else {
            return false;
        };
        match rt.link_named(name, kept.as_str()) {
            Ok(()) => return true,
            Err(e) if e.kind() == ErrorKind::AlreadyExists => {}
            Err(_) => return false,
        }
    }
    false
}

/// Makes sure that nothing is lost where the name is given to another file, or says that something would be.
///
/// Of a link only the name goes, and never what it leads to. A file that may not be lost is kept.
pub fn spare_or_keep<R: Folder>(rt: &R, name: &str) -> bool
    ensures { IsTrue result → MayGo R.opened R.File.remaining R.linked R.seen R.missing name.now }
{
    match rt.look_at(name) {
        Ok(there) => !there.is_file() || is_spare_there(rt, name) || keep(rt, name),
        Err(e) => e.kind() == ErrorKind::NotFound,
    }
}
