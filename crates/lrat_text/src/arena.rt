//! Numbers of many steps, one after another.
ghost use Rattle.std.specs.Prelude.{◌≡◌, pos, IfSome, OnErr, IfOk};
ghost use Rattle.lrat_text.specs.Spans.{IsPushed, IsFront, IsPushedShort};

use std::alloc::AllocError;

/// Where some numbers stand.
#[derive(Clone, Copy)]
pub struct Span {
    pub start: usize,
    pub end: usize,
}

/// Puts items after the others, and gives where they stand. O(items), amortised.
pub fn push_all<T: Copy>(arena: &mut Vec<T>, items: &[T]) -> Result<Span, AllocError>
    ensures pushed { IfOk result (λ span. IsPushed arena.old.items arena.new.items items.now span) }
    ensures unchanged { OnErr result (arena.new.items ≡ arena.old.items) }
{
    let start = arena.len();
    arena.extend_from_slice(items)?;
    Ok(Span {
        start,
        end: arena.len(),
    })
}

/// Puts hints after the others, where each of them is an id below 2^32, and gives where they stand. O(hints), amortised.
pub fn push_short(arena: &mut Vec<u32>, hints: &[i64]) -> Result<Option<Span>, AllocError>
    ensures pushed { IfOk result (λ short. IfSome short (λ span. IsPushedShort arena.old.items arena.new.items hints.now span)) }
    ensures front { IsFront arena.old.items arena.new.items }
{
    let start = arena.len();
    for hint in hints {
        let Some(id) = short_id(*hint) else {
            return Ok(None);
        };
        arena.push(id)?;
    }
    Ok(Some(Span {
        start,
        end: arena.len(),
    }))
}

/// The hint as an id below 2^32, if it is one.
fn short_id(hint: i64) -> Option<u32>
    ensures { IfSome result (λ id. pos id ≡ hint) }
{
    if 0 <= hint && hint <= i64::from(u32::MAX) {
        Some(hint as u32)
    } else {
        None
    }
}
