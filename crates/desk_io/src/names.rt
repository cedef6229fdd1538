//! The names of files beside another one.
ghost use Rattle.std.specs.Prelude.{◌≡◌, ◌≤◌, ◌++◌, IfSome, codes};

use arrayvec::ArrayString;
use std::fmt::Write;

/// The bytes that a path of the system has room for.
const PATH: usize = 4_096;

/// A path, which takes no memory.
pub type Path = ArrayString<PATH>;

/// The name with this end, where a path has room for it.
pub fn with_end(name: &str, end: &str) -> Option<Path>
    ensures { IfSome result (λ path. path.bytes ≡ name.now ++ end.now) }
{
    let mut path = Path::from(name).ok()?;
    path.try_push_str(end).ok()?;
    Some(path)
}

/// A name that a file which is no certificate is kept under: `CERT~`, `CERT~2`, ..
pub fn kept_name(name: &str, number: u32) -> Option<Path>
    ensures first { IfSome result (λ kept. number ≤ 1 → kept.bytes ≡ name.now ++ codes "~") }
{
    let mut kept = with_end(name, "~")?;
    if number > 1 {
        write!(kept, "{number}").ok()?;
    }
    Some(kept)
}

/// Whether a device has the name, or a link to what is open: it stands for what it leads to, and is never replaced.
pub fn is_device_name(name: &str) -> bool {
    match name.strip_prefix("/dev/") {
        Some(rest) => !rest.contains('/'),
        None => false,
    }
}

/// The folder in which the name stands.
pub fn folder_of(name: &str) -> &str {
    match name.rsplit_once('/') {
        Some(("", _)) => "/",
        Some((folder, _)) => folder,
        None => ".",
    }
}
