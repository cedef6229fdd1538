//! Steps of a log, by where their numbers stand.
ghost use Rattle.std.specs.Prelude.{◌≡◌, ℕ, List, length, IfOk};
ghost use Rattle.lrat_model.specs.Steps.{Addition};
ghost use Rattle.lrat_text.specs.Spans.{IsFront};
ghost use Rattle.lrat_text.specs.Entries.{entry_step, IsInside};

use crate::arena::{Span, push_all, push_short};
use lrat_model::Lit;
use std::alloc::AllocError;

/// A step, by where its numbers stand.
#[derive(Clone, Copy)]
pub enum Entry {
    Short { id: u64, lits: Span, hints: Span },
    Wide { id: u64, lits: Span, hints: Span },
    Deletion { id: u64, ids: Span },
}

/// Puts the numbers of a lemma after the others of their kinds, and gives its entry. Linear in them, amortised.
pub fn push_lemma(
    all_lits: &mut Vec<Lit>,
    short: &mut Vec<u32>,
    wide: &mut Vec<i64>,
    id: u64,
    lits: &[Lit],
    hints: &[i64],
) -> Result<Entry, AllocError>
    ensures lits { IsFront all_lits.old.items all_lits.new.items }
    ensures short { IsFront short.old.items short.new.items }
    ensures wide { IsFront wide.old.items wide.new.items }
    ensures step { IfOk result (λ e. (ids : List ℕ) → entry_step all_lits.new.items short.new.items wide.new.items ids e ≡ Addition id lits.now hints.now) }
    ensures inside { IfOk result (λ e. (ids : ℕ) → IsInside (length all_lits.new.items) (length short.new.items) (length wide.new.items) ids e) }
{
    let lits = push_all(all_lits, lits)?;
    if let Some(hints) = push_short(short, hints)? {
        return Ok(Entry::Short { id, lits, hints });
    }
    let hints = push_all(wide, hints)?;
    Ok(Entry::Wide { id, lits, hints })
}
