//! The lines of a script.

ghost use Rattle.std.specs.Prelude.{◌≡◌, IfOk, map};
ghost use Rattle.whatif_session.specs.EditView.{texts};
ghost use Rattle.whatif_session.specs.Scripts.{script_lines, without_empty_last};

use crate::parts::parts;
use std::alloc::{AllocError, Global};

/// The parts but for an empty last one.
fn before_empty_last<'a, 'l>(parts: &'a [&'l [u8]]) -> &'a [&'l [u8]]
    ensures { texts result.now ≡ without_empty_last (texts parts.now) }
{
    let Some((last, rest)) = parts.split_last() else {
        return parts;
    };
    if last.is_empty() {
        return rest;
    }
    parts
}

/// The lines of a script: each up to a line feed, and what follows the last one, if anything does. An empty script has none.
/// Linear in the bytes, and 32 bytes a line.
pub fn script_lines(alloc: Global, script: &[u8]) -> Result<Vec<&[u8]>, AllocError>
    ensures { IfOk result (λ lines. map (λ line. line.now) lines.items ≡ script_lines script.now) }
{
    let pieces = parts(alloc, script, b'\n')?;
    Vec::from_slice(alloc, before_empty_last(&pieces))
}
