//! The parts of a text between marks.

ghost use Rattle.std.specs.Prelude.{◌≡◌, ◌==◌, IfOk};
ghost use Rattle.std.specs.List.{slice_split};
ghost use Rattle.whatif_session.specs.EditView.{texts};

use std::alloc::{AllocError, Global};

/// The parts of a text between marks: linear in the bytes.
pub(crate) fn parts(alloc: Global, text: &[u8], mark: u8) -> Result<Vec<&[u8]>, AllocError>
    ensures { IfOk result (λ parts. texts parts.items ≡ slice_split (λ b. b == mark) text.now) }
{
    text.split(|byte| *byte == mark).collect(alloc)
}
